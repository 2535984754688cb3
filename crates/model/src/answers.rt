// What a call must be answered, by the list of what went before.
use crate::account::Account;
use crate::call::{Call, Named};

// The most that a seller's amounts in force, a shortfall or the weights of a scale come to.
const MOST: u64 = 2_000_000_000;

// A refusal: its number, which is that of the rules, and the spot.
#[derive(Clone, Copy, PartialEq, Eq, Debug)]
pub struct Refusal {
    pub number: u16,
    pub spot: usize,
}

pub fn refused(number: u16, spot: usize) -> Result<(), Refusal> {
    Err(Refusal { number, spot })
}

// The first refusal for the weights of a contract's hours.
pub fn weighed(weights: &[u32], first: u16, last: u16) -> Result<(), Refusal> {
    let hours = usize::from(first)..=usize::from(last);
    let weighed = (1..=weights.len())
        .zip(weights)
        .filter(|(hour, _)| hours.contains(hour))
        .try_fold(0u64, |before, (hour, weight)| {
            let total = before.wrapping_add(u64::from(*weight));
            if total > MOST {
                return Err(Refusal {
                    number: 13,
                    spot: hour,
                });
            }
            Ok(total)
        });
    if weighed? == 0 {
        refused(12, 0)
    } else {
        Ok(())
    }
}

impl Account {
    // The first place, from 1, that has the number, and what was offered there.
    fn place(&self, number: u16) -> Option<(usize, &Named)> {
        self.calls
            .iter()
            .filter_map(Call::offered)
            .enumerate()
            .find(|(_, named)| named.number == number)
            .map(|(before, named)| (before.wrapping_add(1), named))
    }

    fn sold_in_force(&self, seller: u16) -> u64 {
        self.calls
            .iter()
            .filter_map(Call::offered)
            .filter(|named| named.seller == seller && self.in_force(named.number))
            .map(|named| u64::from(named.amount))
            .fold(0, u64::wrapping_add)
    }

    // The first field of an offer that is outside its limits.
    fn within(&self, named: &Named) -> Result<(), Refusal> {
        let agents = u32::from(self.agents);
        let hours = u32::from(self.hours);
        let first = u32::from(named.first);
        let fields = [
            (u32::from(named.number), 1..=65_535),
            (u32::from(named.seller), 1..=agents),
            (u32::from(named.buyer), 1..=agents),
            (u32::from(named.submarket), 1..=4),
            (u32::from(named.class), 1..=4),
            (u32::from(named.source), 0..=1),
            (first, 1..=hours),
            (u32::from(named.last), first..=hours),
            (named.amount, 1..=1_000_000_000),
        ];
        match fields
            .iter()
            .position(|(value, limits)| !limits.contains(value))
        {
            Some(before) => refused(4, before.wrapping_add(1)),
            None => Ok(()),
        }
    }

    fn offer_answer(&self, named: &Named) -> Result<(), Refusal> {
        self.within(named)?;
        if named.seller == named.buyer {
            return refused(5, 0);
        }
        if let Some((place, _)) = self.place(named.number) {
            return refused(6, place);
        }
        let taken = self.calls.iter().filter_map(Call::offered).count();
        if taken >= usize::from(self.places) {
            return refused(7, 0);
        }
        Ok(())
    }

    fn confirm_answer(&self, number: u16, agent: u16, weights: &[u32]) -> Result<(), Refusal> {
        let Some((place, named)) = self.place(number) else {
            return refused(8, 0);
        };
        if agent != named.buyer {
            return refused(9, place);
        }
        if self.confirmed(number).is_some() || self.ended(number) {
            return refused(10, place);
        }
        if weights.len() != usize::from(self.hours) {
            return refused(11, 0);
        }
        weighed(weights, named.first, named.last)?;
        let total = self.sold_in_force(named.seller);
        if total.wrapping_add(u64::from(named.amount)) > MOST {
            return refused(15, place);
        }
        Ok(())
    }

    fn end_answer(&self, number: u16, agent: u16) -> Result<(), Refusal> {
        let Some((place, named)) = self.place(number) else {
            return refused(8, 0);
        };
        if agent != named.seller && agent != named.buyer {
            return refused(9, place);
        }
        if self.ended(number) {
            return refused(10, place);
        }
        Ok(())
    }

    fn tell_answer(&self, agent: u16, kwh: u64) -> Result<(), Refusal> {
        if !(1..=self.agents).contains(&agent) {
            return refused(4, 1);
        }
        if kwh > MOST {
            return refused(16, 0);
        }
        Ok(())
    }

    // What a call must be answered: the refusal that it must meet, if any.
    pub fn answer(&self, call: &Call) -> Result<(), Refusal> {
        match call {
            Call::Offer(named) => self.offer_answer(named),
            Call::Confirm {
                number,
                agent,
                weights,
            } => self.confirm_answer(*number, *agent, weights.as_slice()),
            Call::End { number, agent } => self.end_answer(*number, *agent),
            Call::Tell { agent, kwh } => self.tell_answer(*agent, *kwh),
        }
    }
}
