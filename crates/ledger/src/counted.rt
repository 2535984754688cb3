// Kinds of entry whose numbers tell what was sold and bought.
ghost use Rattle.std.specs.Prelude.{◌≡◌, ℕ};
ghost use Rattle.entry.specs.Kinds.{meaning};
ghost use Rattle.ledger.specs.Differences.{AtEachPosition, net_difference, by_source_difference};
ghost use Rattle.ledger.specs.Past.{Ledger};

use entry::kinds::{BySource, Net};
use entry::reversible::Reversible;

// A kind of entry that holds the true differences of what was sold and bought. Which those are at an agent, a submarket and an
// hour, the ledger says.
pub trait Counted: Reversible {
    ghost difference: { Ledger → ℕ → ℕ → ℕ → Self };

    // The entry itself. Its numbers fit their width, so one that means a position of any life is the true difference there:
    // nothing wraps. No law can say this, since to a law a number has no width.
    fn exact(self) -> Self
        ensures same { result ≡ self }
        ensures counted { AtEachPosition (meaning Self.Joining Self.Reversible.own) (λ b value agent submarket hour.
            Self.Joining.value result ≡ value → result ≡ difference b agent submarket hour) };
}

impl Counted for Net {
    ghost difference = { net_difference };

    fn exact(self) -> Net {
        self
    }
}

impl Counted for BySource {
    ghost difference = { by_source_difference };

    fn exact(self) -> BySource {
        self
    }
}
