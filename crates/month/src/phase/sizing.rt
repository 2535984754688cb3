// The sizes that a month was opened with.
ghost use Rattle.std.specs.Prelude.{◌≡◌};

use super::Month;
use book::sizes::Sizes;

impl<P> Month<P> {
    pub fn sizes(&self) -> Sizes
        ensures { result ≡ self.now.sizes }
    {
        self.sizes
    }
}
