// The numbers of a board as true differences of sold and bought.
ghost use Rattle.std.specs.Prelude.{◌≡◌};
ghost use Rattle.ledger.specs.Differences.{NetIsTrue, BySourceIsTrue};

// In every life a net number, and each number of an entry by source, is the true difference: none wraps. What counts is the
// clauses; the number answered is there so that a wrong one shows that they are read.
pub fn numbers_are_true() -> u8
    ensures net { NetIsTrue }
    ensures by_source { BySourceIsTrue }
    ensures zero { result ≡ 0 }
{
    0
}
