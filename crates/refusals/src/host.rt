// The four memories, and what a host may do to them between calls. (The hosts of `trial` and `trials` may do less, and compare more.)
use crate::mark::Mark;
use crate::order::Step;
use crate::script::Line;
use crate::told::Told;
use book::contract::{BLANK, Class, Contract, State};
use entry::kinds::{BySource, Net};
use entry::source::Source;
use month::memories::Memories;
use month::phase::{Month, Open};
use scale::fault::Fault;
use std::alloc::{AllocError, Global};

// The memories of a month, and a board of the other kind. They begin with something in them, so that nothing passes for untouched
// that was cleared.
#[derive(Drop)]
pub struct Host {
    heap: Global,
    pub places: Vec<Contract>,
    pub rows: Vec<u32>,
    pub owed: Vec<u64>,
    pub board: Vec<Net>,
    pub by_source: Vec<BySource>,
}

const LEFT: Net = Net { units: 5 };

const LEFT_BY_SOURCE: BySource = BySource {
    conventional: 6,
    incentivised: 7,
};

// Whether a memory becomes longer or shorter.
#[derive(Clone, Copy, PartialEq, Eq, Debug)]
enum Length {
    Longer,
    Shorter,
}

impl Length {
    // One element more at the end of a memory, or one less.
    fn make<T: Drop>(self, memory: &mut Vec<T>, element: T) -> Result<(), AllocError> {
        match self {
            Length::Longer => memory.push(element)?,
            Length::Shorter => {
                let _ = memory.pop();
            }
        }
        Ok(())
    }
}

impl Host {
    // Memories of exactly the lengths that a month of these sizes wants.
    pub fn new(heap: Global, agents: u16, hours: u16, size: u16) -> Result<Host, AllocError> {
        let rows = usize::from(size).wrapping_mul(usize::from(hours));
        let entries = usize::from(agents)
            .wrapping_mul(4)
            .wrapping_mul(usize::from(hours));
        Ok(Host {
            heap,
            places: vec![in heap; BLANK; usize::from(size)]?,
            rows: vec![in heap; 3u32; rows]?,
            owed: vec![in heap; 4u64; usize::from(agents)]?,
            board: vec![in heap; LEFT; entries]?,
            by_source: vec![in heap; LEFT_BY_SOURCE; entries]?,
        })
    }

    // A mark of all that the four memories hold.
    pub fn mark(&self) -> Mark {
        let mut mark = Mark::START;
        for contract in self.places.iter() {
            mark = mark.with_contract(contract);
        }
        for number in self.rows.iter() {
            mark = mark.with(*number);
        }
        for number in self.owed.iter() {
            mark = mark.with(*number);
        }
        for entry in self.board.iter() {
            mark = mark.with(entry.units.cast_unsigned());
        }
        mark
    }

    // What an answer is told: of a refusal, whether it moved something since a mark.
    pub fn told(&self, before: Mark, answer: Result<(), Fault>) -> Told {
        match answer {
            Ok(()) => Told::Passed,
            Err(_) if self.mark() != before => Told::Moved,
            Err(fault) => Told::from(fault),
        }
    }

    // The four memories, lent for a question.
    pub fn memories(&self) -> Memories<'_, Net> {
        Memories {
            places: self.places.as_slice(),
            rows: self.rows.as_slice(),
            shortfalls: self.owed.as_slice(),
            board: self.board.as_slice(),
        }
    }

    pub fn open(&mut self, agents: u16, hours: u16, size: u16) -> Result<Month<Open>, Fault> {
        Month::open(
            agents,
            hours,
            size,
            self.places.as_slice(),
            self.rows.as_slice(),
            self.owed.as_mut_slice(),
            self.board.as_mut_slice(),
        )
    }

    // Changes the memory of a spot: the number that a refusal of its length tells. Each memory has elements of its own type, so no list holds them.
    fn resize(&mut self, spot: u16, length: Length) -> Result<(), AllocError> {
        match spot {
            1 => length.make(&mut self.places, BLANK),
            2 => length.make(&mut self.rows, 3),
            3 => length.make(&mut self.owed, 4),
            4 => length.make(&mut self.board, LEFT),
            _ => length.make(&mut self.by_source, LEFT_BY_SOURCE),
        }
    }

    // Does what a line says that is no call.
    pub fn prepare(&mut self, step: Step, line: &Line) -> Result<(), AllocError> {
        match step {
            Step::Renew => {
                *self = Host::new(self.heap, line.number(0), line.number(1), line.number(2))?;
            }
            Step::Lengthen => self.resize(line.number(0), Length::Longer)?,
            Step::Shorten => self.resize(line.number(0), Length::Shorter)?,
            Step::WriteField => {
                let place = line.number::<usize>(0).wrapping_sub(1);
                if let Some(contract) = self.places.get_mut(place) {
                    write_field(contract, line);
                }
            }
            Step::WriteRow => {
                if let Some(number) = self.rows.get_mut(line.number(0)) {
                    *number = line.number(1);
                }
            }
            Step::WriteShortfall => {
                let agent = line.number::<usize>(0).wrapping_sub(1);
                if let Some(number) = self.owed.get_mut(agent) {
                    *number = line.number(1);
                }
            }
        }
        Ok(())
    }
}

// Writes the field that a line names by its place among the nine terms, the effective amount and the state. Each field has a type of
// its own, so no table would be shorter.
fn write_field(contract: &mut Contract, line: &Line) {
    let terms = &mut contract.terms;
    match line.number::<u16>(1) {
        1 => terms.number = line.number(2),
        2 => terms.seller = line.number(2),
        3 => terms.buyer = line.number(2),
        4 => terms.submarket = line.number(2),
        5 => terms.class = Class::try_from(line.number::<u16>(2)).unwrap_or(Class::Plant),
        6 => terms.source = Source::Incentivised,
        7 => terms.first = line.number(2),
        8 => terms.last = line.number(2),
        9 => terms.amount = line.number(2),
        10 => contract.effective = line.number(2),
        _ => contract.state = state_of(line.number(2)),
    }
}

// The state that a line writes; only the script numbers states.
fn state_of(number: u16) -> State {
    match number {
        1 => State::Offered,
        2 => State::InForce,
        _ => State::Ended,
    }
}
