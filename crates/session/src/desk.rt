// The month of a session, and the memory that is lent to its calls.
ghost use Rattle.std.specs.Prelude.{◌≤◌};

use crate::stage::Stage;
use book::contract::Contract;

pub mod answering;
pub mod any;
pub mod calls;
pub mod opening;
pub mod questions;

// How large a month the memory is for.
pub(crate) const AGENTS: usize = 4;

pub(crate) const HOURS: usize = 24;

pub(crate) const PLACES: usize = 16;

// A number for each place and hour, and an entry for each agent, submarket and hour.
pub(crate) const ROWS: usize = 384;

pub(crate) const ENTRIES: usize = 384;

// How much of each memory the month uses, from the front on.
#[derive(Clone, Copy)]
pub struct Lengths {
    places: usize,
    rows: usize,
    shortfalls: usize,
    entries: usize,
    ghost few_places: { places ≤ 16 },
    ghost few_rows: { rows ≤ 384 },
    ghost few_shortfalls: { shortfalls ≤ 4 },
    ghost few_entries: { entries ≤ 384 },
}

// The stage of a month, and memory of fixed size with a board of one kind of entry. No memory comes from a heap, so each
// stands here whole, and the lengths say how much of it the month uses.
pub struct Desk<E> {
    stage: Stage,
    lengths: Lengths,
    places: [Contract; PLACES],
    rows: [u32; ROWS],
    shortfalls: [u64; AGENTS],
    board: [E; ENTRIES],
}
