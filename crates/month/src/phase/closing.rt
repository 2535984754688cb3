// From open to closed, and how a month is put away.
ghost use Rattle.std.specs.Prelude.{◌≡◌};

use super::{Closed, Month, Open};
use std::marker::PhantomData;

impl Month<Open> {
    // Closes the month. It is used up, no memory is touched, and nothing is refused.
    pub fn close(self) -> Month<Closed>
        ensures sizes { result.sizes ≡ self.sizes }
        ensures taken { result.taken ≡ self.taken }
    {
        let Month {
            sizes,
            taken,
            phase: _,
        } = self;
        Month {
            sizes,
            taken,
            phase: PhantomData,
        }
    }
}

impl<P> Month<P> {
    // Puts the month away for good, and answers how many places it had taken.
    pub fn discard(self) -> u16
        ensures { result ≡ self.taken }
    {
        let Month {
            sizes: _,
            taken: count,
            phase: _,
        } = self;
        count
    }
}
