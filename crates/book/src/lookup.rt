// Looking a contract up by its number.
ghost use Rattle.std.specs.Prelude.{◌≡◌, MatchOption};
ghost use Rattle.book.specs.Lookup.{Absent, FirstPlace, place_of};

use crate::contract::{Contract, Number};

// The first place, counted from 1, whose contract has the number.
pub fn find(taken: &[Contract], number: Number) -> Option<usize>
    ensures place { result ≡ place_of number taken.now }
    ensures first { MatchOption result (Absent number taken.now) (FirstPlace number taken.now) }
{
    taken
        .iter()
        .position(|contract| contract.terms.number == number)
        .map(|i| i + 1)
}
