// Making a call, and holding its answer against the account.
use crate::kind::Kind;
use crate::staged::Staged;
use anyhow::{bail, ensure};
use book::contract::Offer;
use model::answers::Refusal;
use model::call::{Call, Named};
use month::phase::{Month, Open};
use scale::clip::Clip;
use scale::even::EvenScale;
use scale::fault::Fault;
use scale::row::RowScale;
use std::alloc::{AllocError, Global};

// The kind of scale that a confirmation hands in.
#[derive(Clone, Copy, PartialEq, Eq, Debug)]
pub enum Shape {
    Even,
    Row,
    Clip { first: u16, last: u16 },
}

impl Shape {
    // The weight of a part, from 1, whose raw weight is given.
    fn weight(self, part: usize, raw: u32) -> u32 {
        match self {
            Shape::Even => 1,
            Shape::Row => raw,
            Shape::Clip { first, last } => {
                if (usize::from(first)..=usize::from(last)).contains(&part) {
                    raw
                } else {
                    0
                }
            }
        }
    }
}

// The weights that a scale of a shape, made of raw weights, means.
pub fn meant(heap: Global, shape: Shape, raw: &[u32]) -> Result<Vec<u32>, AllocError> {
    (1..=raw.len())
        .zip(raw)
        .map(|(part, weight)| shape.weight(part, *weight))
        .collect(heap)
}

// A refusal of the system as the account has it, by its number. Both types stand in other crates, and an impl of `From` must name one of this crate.
pub fn refusal_of(fault: Fault) -> Refusal {
    Refusal {
        number: fault.reason.number(),
        spot: fault.spot,
    }
}

// An offer of the system, as the account names it; no `From` for the same reason.
pub fn offer_of(named: &Named) -> Offer {
    Offer {
        number: named.number,
        seller: named.seller,
        buyer: named.buyer,
        submarket: named.submarket,
        class: named.class,
        source: named.source,
        first: named.first,
        last: named.last,
        amount: named.amount,
    }
}

impl<E: Kind + Drop> Staged<E> {
    // Opens the month over the memories.
    pub fn open(&mut self) -> Result<Month<Open>, Fault> {
        Month::open(
            self.account.agents,
            self.account.hours,
            self.account.places,
            self.places.as_slice(),
            self.rows.as_slice(),
            self.shortfalls.as_mut_slice(),
            self.board.as_mut_slice(),
        )
    }

    // Each shape is a scale of another type, and the month confirms on any: so the shape is told apart here, and no closure would be shorter.
    fn confirm(
        &mut self,
        month: &Month<Open>,
        number: u16,
        agent: u16,
        shape: Shape,
        raw: &[u32],
    ) -> Result<(), Fault> {
        let places = self.places.as_mut_slice();
        let rows = self.rows.as_mut_slice();
        let shortfalls = self.shortfalls.as_slice();
        let board = self.board.as_mut_slice();
        match shape {
            Shape::Even => {
                let scale = EvenScale::new(raw.len());
                month.confirm(places, rows, shortfalls, board, number, agent, &scale)
            }
            Shape::Row => {
                let scale = RowScale::new(raw);
                month.confirm(places, rows, shortfalls, board, number, agent, &scale)
            }
            Shape::Clip { first, last } => {
                let row = RowScale::new(raw);
                let scale = Clip::new(&row, usize::from(first), usize::from(last));
                month.confirm(places, rows, shortfalls, board, number, agent, &scale)
            }
        }
    }

    // Makes a call on the month alone. A confirmation's scale is made of the raw weights, by its shape.
    // A match tells the calls apart, since each has other arguments.
    pub fn make(
        &mut self,
        month: &mut Month<Open>,
        call: &Call,
        shape: Shape,
        raw: &[u32],
    ) -> Result<(), Fault> {
        let places = self.places.as_mut_slice();
        let rows = self.rows.as_slice();
        let owed = &mut self.shortfalls;
        let board = self.board.as_mut_slice();
        match call {
            Call::Offer(named) => {
                month.offer(places, rows, owed.as_slice(), board, offer_of(named))
            }
            Call::Confirm { number, agent, .. } => {
                self.confirm(month, *number, *agent, shape, raw)
            }
            Call::End { number, agent } => {
                month.end(places, rows, owed.as_slice(), board, *number, *agent)
            }
            Call::Tell { agent, kwh } => {
                month.tell(places, rows, owed.as_mut_slice(), board, *agent, *kwh)
            }
        }
    }

    // Holds the answer of a call against the account, and writes the call down if it was accepted.
    pub fn note(
        &mut self,
        call: Call,
        answer: Result<(), Fault>,
    ) -> anyhow::Result<Result<(), Refusal>> {
        let told = answer.map_err(refusal_of);
        match (self.account.answer(&call), told) {
            (Ok(()), Ok(())) => self.account.note(call)?,
            (Err(wanted), Err(refusal)) => {
                ensure!(wanted == refusal, "another refusal than the account's");
            }
            (Ok(()), Err(_)) => bail!("refused, and the account accepts"),
            (Err(_), Ok(())) => bail!("accepted, and the account refuses"),
        }
        Ok(told)
    }
}
