// Making and reading a month's sizes.
ghost use Rattle.std.specs.Prelude.{◌≡◌, IfOk};
ghost use Rattle.book.specs.Sizing.{Holds, size_checks};
ghost use Rattle.scale.specs.Refusals.{first_of, refusal_of};

use crate::limit::limit;
use crate::sizes::Sizes;
use scale::fault::{Fault, Reason};

impl Sizes {
    // The sizes of a month, refused at the first that is outside its limits.
    pub fn new(agents: u16, hours: u16, places: u16) -> Result<Sizes, Fault>
        ensures refused { refusal_of result ≡ first_of (size_checks agents hours places) }
        ensures holds { IfOk result (λ s. Holds s agents hours places) }
    {
        limit(agents as u32, 2, 64, Reason::SizeOutside, 1)?;
        limit(hours as u32, 1, 744, Reason::SizeOutside, 2)?;
        limit(places as u32, 1, 256, Reason::SizeOutside, 3)?;
        Ok(Sizes {
            agents,
            hours,
            places,
        })
    }

    pub fn agents(&self) -> u16
        ensures { result ≡ self.now.agents }
    {
        self.agents
    }

    pub fn hours(&self) -> u16
        ensures { result ≡ self.now.hours }
    {
        self.hours
    }

    pub fn places(&self) -> u16
        ensures { result ≡ self.now.places }
    {
        self.places
    }
}
