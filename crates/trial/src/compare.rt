// Holding a month's memories and answers against its account.
use crate::kind::Kind;
use crate::making::offer_of;
use crate::staged::Staged;
use anyhow::ensure;
use book::contract::{Contract, State};
use model::account::Account;
use model::call::Named;
use model::ledger::{Line, NOTHING, Positions, turnover};
use month::phase::{Closed, Month};
use scale::fault::{Fault, Reason};
use std::alloc::Global;

// How far a contract's life has come, by the account.
fn state_in(account: &Account, number: u16) -> State {
    if account.ended(number) {
        State::Ended
    } else if account.confirmed(number).is_some() {
        State::InForce
    } else {
        State::Offered
    }
}

// Whether a memory holds just the numbers wanted.
pub fn same_numbers(memory: &[u32], wanted: &[u64]) -> bool {
    memory
        .iter()
        .map(|number| u64::from(*number))
        .eq(wanted.iter().copied())
}

// The line of a contract number, if it is in force.
fn line_of(lines: &[Line], number: u16) -> Option<&Line> {
    lines.iter().find(|line| line.named.number == number)
}

impl<E: Kind + Drop> Staged<E> {
    // Whether a place holds what was offered, in the account's state.
    fn place_agrees(&self, contract: &Contract, named: &Named) -> bool {
        contract.terms.fields() == offer_of(named)
            && contract.state == state_in(&self.account, named.number)
    }

    // Whether a place and its row are what the account says.
    fn all_agrees(&self, place: usize, named: &Named, line: Option<&Line>) -> bool {
        self.places.get(place).is_some_and(|contract| {
            self.place_agrees(contract, named) && self.delivery_agrees(place, contract, line)
        })
    }

    // Whether the effective amount of a place, and the row of one in force, are the account's.
    fn delivery_agrees(&self, place: usize, contract: &Contract, line: Option<&Line>) -> bool {
        let Some(line) = line else {
            return contract.effective == 0;
        };
        let hours = usize::from(self.account.hours);
        let from = place.wrapping_mul(hours);
        u64::from(contract.effective) == line.effective
            && self
                .rows
                .get(from..from.wrapping_add(hours))
                .is_some_and(|row| same_numbers(row, line.row.as_slice()))
    }

    // Holds every place and row against the account.
    fn compare_places(&self, heap: Global, lines: &[Line]) -> anyhow::Result<()> {
        for (i, named) in self.account.offered(heap)?.iter().enumerate() {
            ensure!(
                self.all_agrees(i, named, line_of(lines, named.number)),
                "a place differs from the account"
            );
        }
        Ok(())
    }

    // Holds every shortfall against the account.
    fn compare_shortfalls(&self) -> anyhow::Result<()> {
        let wanted = (1..=self.account.agents).map(|agent| self.account.shortfall(agent));
        ensure!(
            self.shortfalls.iter().copied().eq(wanted),
            "a shortfall differs from the account"
        );
        Ok(())
    }

    // Holds an agent's positions against the account's.
    fn compare_agent<P>(
        &self,
        month: &Month<P>,
        wanted: &Positions,
        agent: u16,
    ) -> anyhow::Result<()> {
        for submarket in 1..=4u16 {
            for hour in 1..=self.account.hours {
                let position = wanted.at(agent, submarket, hour);
                let answer = month.position(self.board.as_slice(), agent, submarket, hour);
                ensure!(
                    answer.is_ok_and(|entry| entry.says(position)),
                    "a position differs from the account"
                );
            }
        }
        Ok(())
    }

    // Examines that every hour of every submarket joins to empty.
    fn compare_balance<P>(&self, month: &Month<P>) -> anyhow::Result<()> {
        for submarket in 1..=4u16 {
            for hour in 1..=self.account.hours {
                let answer = month.balance(self.board.as_slice(), submarket, hour);
                ensure!(
                    answer.is_ok_and(|entry| entry.says(NOTHING)),
                    "an hour does not balance"
                );
            }
        }
        Ok(())
    }

    // Holds an agent's turnover against the account's, and answers it.
    pub fn compare_turnover<P>(
        &self,
        month: &Month<P>,
        lines: &[Line],
        agent: u16,
    ) -> anyhow::Result<(u64, u64)> {
        let answer = month.turnover(self.memories(), agent);
        let wanted = turnover(lines, agent);
        ensure!(answer == Ok(wanted), "a turnover differs from the account");
        Ok(wanted)
    }

    // Whether a contract's quantity at an hour is the account's, or is refused where it is not in force.
    fn quantity_agrees<P>(
        &self,
        month: &Month<P>,
        place: usize,
        named: &Named,
        line: Option<&Line>,
        hour: u16,
    ) -> bool {
        let answer = month.quantity(self.memories(), named.number, hour);
        let Some(line) = line else {
            return answer
                == Err(Fault {
                    reason: Reason::StateUnfit,
                    spot: place,
                });
        };
        let wanted = line.quantities.get(usize::from(hour).wrapping_sub(1));
        answer.is_ok_and(|quantity| wanted.copied() == Some(u64::from(quantity)))
    }

    // Holds the quantity of every contract at every hour against the account's.
    pub fn compare_quantities<P>(&self, heap: Global, month: &Month<P>) -> anyhow::Result<()> {
        let lines = self.account.lines(heap)?;
        for (i, named) in self.account.offered(heap)?.iter().enumerate() {
            let line = line_of(lines.as_slice(), named.number);
            for hour in 1..=self.account.hours {
                ensure!(
                    self.quantity_agrees(month, i.wrapping_add(1), named, line, hour),
                    "a quantity differs from the account"
                );
            }
        }
        Ok(())
    }

    // Holds an agent's certificate line against the text of its turnover, and the rest of the page against what it held.
    pub fn compare_line(
        &self,
        heap: Global,
        month: &Month<Closed>,
        agent: u16,
        (sold, bought): (u64, u64),
    ) -> anyhow::Result<()> {
        let mut page = [b'#'; 64];
        let answer = month.certificate(self.memories(), agent, &mut page);
        let text = format!(in heap; "agent {agent} sold {sold} bought {bought}\n")?;
        let rest = page.strip_prefix(text.as_bytes());
        ensure!(
            answer.is_ok_and(|length| length == text.len())
                && rest.is_some_and(|rest| rest.iter().all(|byte| *byte == b'#')),
            "a certificate line differs from the account"
        );
        Ok(())
    }

    // Holds everything against the account: places, rows, shortfalls, positions and balance.
    pub fn compare<P>(&self, heap: Global, month: &Month<P>) -> anyhow::Result<()> {
        let lines = self.account.lines(heap)?;
        self.compare_places(heap, lines.as_slice())?;
        self.compare_shortfalls()?;
        let wanted = Positions::of(heap, lines.as_slice())?;
        for agent in 1..=self.account.agents {
            self.compare_agent(month, &wanted, agent)?;
        }
        self.compare_balance(month)
    }
}
