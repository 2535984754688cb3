// The total weight of a scale, within its limits.
ghost use Rattle.std.specs.Prelude.{◌≡◌, ◌≤◌, IfOk, sum};
ghost use Rattle.scale.specs.Refusals.{refusal_of};
ghost use Rattle.scale.specs.Totals.{limit, total_check, Told};

use crate::fault::{Fault, Reason};
use crate::weights::Scale;

// The largest total, and the largest amount that is shared.
pub const MOST: u32 = 2_000_000_000;

// The total weight of a scale, from 1 to MOST. `law` says in the subject's words what the check tells.
pub fn total<S: Scale>(scale: &S) -> Result<u32, Fault>
    ensures answer { refusal_of result ≡ total_check (S.Scale.weights scale.now) }
    ensures value { IfOk result (λ t. (t ≡ sum (S.Scale.weights scale.now)) × (1 ≤ t) × (t ≤ limit)) }
    ensures law { Told (S.Scale.weights scale.now) }
{
    let mut so_far: u32 = 0;
    for part in 1..=scale.length() {
        let weight = scale.weight(part);
        if weight > MOST - so_far {
            return Err(Fault {
                reason: Reason::ScaleHeavy,
                spot: part,
            });
        }
        so_far += weight;
    }
    if so_far == 0 {
        Err(Fault {
            reason: Reason::ScaleWeightless,
            spot: 0,
        })
    } else {
        Ok(so_far)
    }
}
