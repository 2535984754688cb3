// The ledger of a month's past, and the law that every life of a month balances.
#![tactic(auto)]

ghost use Rattle.std.specs.Prelude.{◌≡◌};
ghost use Rattle.entry.specs.Kinds.{meaning};
ghost use Rattle.ledger.specs.Lives.{LivesBalance};

use entry::joining::Joining;
use entry::reversible::Reversible;

pub mod counted;
pub mod differences;

// Every life balances, for each kind of entry that a board accepts: whoever calls it has the law at hand. What counts is the
// clause; the number answered is there so that a wrong one shows that it is read.
pub fn every_life_balances<E: Reversible>() -> u8
    ensures law { LivesBalance (meaning E.Joining E.Reversible.own) }
    ensures zero { result ≡ 0 }
{
    0
}
