// The four memories of a month, which its host owns.
use book::contract::Contract;

// All four, lent for reading, as the questions and the checks of the book take them. The calls that change a month take them
// one by one, since each asks to write only the memories that it may change, and a struct of `&mut` would ask for all four.
#[derive(Clone, Copy)]
pub struct Memories<'a, E> {
    pub places: &'a [Contract],
    pub rows: &'a [u32],
    pub shortfalls: &'a [u64],
    pub board: &'a [E],
}
