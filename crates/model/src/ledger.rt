// The ledger of an account: contracts in force, what they deliver, and everyone's positions, all worked out from the calls.
use crate::account::Account;
use crate::call::{Call, Named};
use crate::cutting::{Claim, cut};
use crate::sharing::parts;
use std::alloc::{AllocError, Global};
use std::ops::Range;

// A contract in force: what was offered, its row, what the cuts leave of it, and its quantities.
#[derive(Drop)]
pub struct Line {
    pub named: Named,
    pub row: Vec<u64>,
    pub effective: u64,
    pub quantities: Vec<u64>,
}

// What an agent has sold less bought, of either source.
#[derive(Clone, Copy, PartialEq, Eq, Debug)]
pub struct Position {
    pub conventional: i64,
    pub incentivised: i64,
}

pub const NOTHING: Position = Position {
    conventional: 0,
    incentivised: 0,
};

// How many submarkets a month has.
const SUBMARKETS: usize = 4;

// Everyone's positions, of all agents and hours that contracts reach: a lane of hours for each submarket of each agent.
// One list, since every position of a month is asked for: with a map by agent, submarket and hour all of `fullmonth` took three times as long.
#[derive(Drop)]
pub struct Positions {
    hours: usize,
    lanes: Vec<Position>,
}

// The weights from the first to the last hour, the others 0.
pub fn clipped(
    heap: Global,
    weights: &[u32],
    first: u16,
    last: u16,
) -> Result<Vec<u64>, AllocError> {
    let hours = usize::from(first)..=usize::from(last);
    (1..=weights.len())
        .zip(weights)
        .map(|(hour, weight)| if hours.contains(&hour) {
            u64::from(*weight)
        } else {
            0
        })
        .collect(heap)
}

impl Position {
    fn add(&mut self, source: u16, change: i64) {
        let number = if source == 0 {
            &mut self.conventional
        } else {
            &mut self.incentivised
        };
        *number = number.wrapping_add(change);
    }
}

impl Positions {
    // Everyone's positions, by plain sums over contracts and hours.
    pub fn of(heap: Global, lines: &[Line]) -> Result<Positions, AllocError> {
        let agents = lines
            .iter()
            .map(|line| line.named.seller.max(line.named.buyer))
            .max()
            .unwrap_or(0);
        let hours = lines
            .iter()
            .map(|line| line.quantities.len())
            .max()
            .unwrap_or(0);
        let count = usize::from(agents)
            .wrapping_mul(SUBMARKETS)
            .wrapping_mul(hours);
        let mut positions = Positions {
            hours,
            lanes: vec![in heap; NOTHING; count]?,
        };
        for line in lines {
            positions.add_line(line);
        }
        Ok(positions)
    }

    // Where the hours of an agent's submarket stand, both from 1.
    fn lane(&self, agent: u16, submarket: u16) -> Range<usize> {
        let before = usize::from(agent)
            .wrapping_sub(1)
            .wrapping_mul(SUBMARKETS)
            .wrapping_add(usize::from(submarket).wrapping_sub(1));
        let from = before.wrapping_mul(self.hours);
        from..from.wrapping_add(self.hours)
    }

    fn add_line(&mut self, line: &Line) {
        let Named {
            seller,
            buyer,
            submarket,
            source,
            ..
        } = line.named;
        for (agent, sign) in [(seller, 1), (buyer, -1i64)] {
            let lane = self.lane(agent, submarket);
            let positions = self.lanes.as_mut_slice().get_mut(lane).unwrap_or_default();
            for (position, quantity) in positions.iter_mut().zip(line.quantities.iter()) {
                let change = i64::try_from(*quantity).unwrap_or(0);
                position.add(source, change.wrapping_mul(sign));
            }
        }
    }

    // An agent's position at a submarket and hour.
    pub fn at(&self, agent: u16, submarket: u16, hour: u16) -> Position {
        self.lanes
            .get(self.lane(agent, submarket))
            .and_then(|lane| lane.get(usize::from(hour).wrapping_sub(1)))
            .copied()
            .unwrap_or(NOTHING)
    }
}

impl Account {
    // What each contract in force claims of its seller, in place order.
    fn claims(&self, heap: Global) -> Result<Vec<Claim>, AllocError> {
        self.calls
            .iter()
            .filter_map(Call::offered)
            .filter(|named| self.in_force(named.number))
            .copied()
            .map(Claim::from)
            .collect(heap)
    }

    // A contract's row: its amount over the weights that it was confirmed on, from its first to its last hour.
    fn row(&self, heap: Global, named: Named) -> Result<Vec<u64>, AllocError> {
        match self.confirmed(named.number) {
            Some(weights) => {
                let weights = clipped(heap, weights.as_slice(), named.first, named.last)?;
                parts(heap, u64::from(named.amount), weights.as_slice())
            }
            None => Ok(Vec::new(heap)),
        }
    }

    // What a contract in force delivers, if `off` is cut from it.
    fn line(&self, heap: Global, named: Named, off: u64) -> Result<Line, AllocError> {
        let effective = u64::from(named.amount).saturating_sub(off);
        let row = self.row(heap, named)?;
        let quantities = parts(heap, effective, row.as_slice())?;
        Ok(Line {
            named,
            row,
            effective,
            quantities,
        })
    }

    // The contracts in force, in place order. The claims stand in the same order, so those before a line's own are of earlier places.
    pub fn lines(&self, heap: Global) -> Result<Vec<Line>, AllocError> {
        let claims = self.claims(heap)?;
        let all = claims.as_slice();
        self.calls
            .iter()
            .filter_map(Call::offered)
            .filter(|named| self.in_force(named.number))
            .enumerate()
            .map(|(count, named)| {
                let before = all.get(0..count).unwrap_or(all);
                let owed = self.shortfall(named.seller);
                let off = cut(all, before, Claim::from(*named), owed);
                self.line(heap, *named, off)
            })
            .collect::<Result<Vec<Line>, AllocError>>(heap)?
    }
}

// What an agent sold and bought in all.
pub fn turnover(lines: &[Line], agent: u16) -> (u64, u64) {
    let total = |total: u64, line: &Line| total.wrapping_add(line.effective);
    let sold = lines
        .iter()
        .filter(|line| line.named.seller == agent)
        .fold(0, total);
    let bought = lines
        .iter()
        .filter(|line| line.named.buyer == agent)
        .fold(0, total);
    (sold, bought)
}
