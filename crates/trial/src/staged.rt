// The four memories of a month, and the account of what was called.
use crate::kind::Kind;
use book::contract::{Class, Contract, State, Terms};
use entry::source::Source;
use model::account::Account;
use month::memories::Memories;
use std::alloc::{AllocError, Global};

#[derive(Drop)]
pub struct Staged<E: Drop> {
    pub places: Vec<Contract>,
    pub rows: Vec<u32>,
    pub shortfalls: Vec<u64>,
    pub board: Vec<E>,
    pub account: Account,
}

// What stands at a place that no offer has taken.
const UNUSED: Contract = Contract {
    terms: Terms {
        number: 9,
        seller: 9,
        buyer: 9,
        submarket: 9,
        class: Class::Plant,
        source: Source::Conventional,
        first: 9,
        last: 9,
        amount: 9,
    },
    effective: 9,
    state: State::Ended,
};

impl<E: Kind + Drop> Staged<E> {
    // Memories of the right lengths, with leftovers in them that no call may heed.
    pub fn new(
        heap: Global,
        agents: u16,
        hours: u16,
        places: u16,
    ) -> Result<Staged<E>, AllocError> {
        let rows = usize::from(places).wrapping_mul(usize::from(hours));
        let entries = usize::from(agents)
            .wrapping_mul(4)
            .wrapping_mul(usize::from(hours));
        Ok(Staged {
            places: vec![in heap; UNUSED; usize::from(places)]?,
            rows: vec![in heap; 77; rows]?,
            shortfalls: vec![in heap; 5; usize::from(agents)]?,
            board: (0..entries).map(|_| E::empty()).collect(heap)?,
            account: Account::new(heap, agents, hours, places),
        })
    }

    // The four memories, lent for a question.
    pub fn memories(&self) -> Memories<'_, E> {
        Memories {
            places: self.places.as_slice(),
            rows: self.rows.as_slice(),
            shortfalls: self.shortfalls.as_slice(),
            board: self.board.as_slice(),
        }
    }
}
