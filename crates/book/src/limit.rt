// A number held to its limits.
ghost use Rattle.std.specs.Prelude.{◌≡◌};
ghost use Rattle.book.specs.Limits.{between};
ghost use Rattle.scale.specs.Refusals.{number_of, refusal_of, unless};

use scale::fault::{Fault, Reason};

// Refuses a number below `low` or above `high`.
pub fn limit(number: u32, low: u32, high: u32, reason: Reason, spot: usize) -> Result<(), Fault>
    ensures { refusal_of result ≡ unless (between low high number) (number_of reason) spot }
{
    if (low..=high).contains(&number) {
        Ok(())
    } else {
        Err(Fault { reason, spot })
    }
}
