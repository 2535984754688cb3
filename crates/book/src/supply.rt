// A scale handed in for a contract's hours.
ghost use Rattle.std.specs.Prelude.{◌≡◌};
ghost use Rattle.scale.specs.Refusals.{refusal_of};
ghost use Rattle.book.specs.Supply.{supply_check};

use crate::contract::Terms;
use scale::clip::Clip;
use scale::fault::{Fault, Reason};
use scale::total::total;
use scale::weights::Scale;

impl Terms {
    // Refuses a scale of another length than the month's hours, or whose part in the contract's hours weighs nothing or too much.
    // The fault of the scale is passed up as it is.
    pub fn weigh<S: Scale>(&self, hours: usize, scale: &S) -> Result<(), Fault>
        ensures { refusal_of result ≡ supply_check hours self.now (S.Scale.weights scale.now) }
    {
        if scale.length() != hours {
            return Err(Fault {
                reason: Reason::ScaleLength,
                spot: 0,
            });
        }
        total(&Clip::new(scale, self.first as usize, self.last as usize))?;
        Ok(())
    }
}
