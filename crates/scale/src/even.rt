// The even scale: every part weighs 1.
ghost use Rattle.std.specs.Prelude.{◌≡◌, replicate};

use crate::weights::Scale;

#[derive(Drop)]
pub struct EvenScale {
    parts: usize,
}

impl EvenScale {
    pub fn new(parts: usize) -> EvenScale
        ensures { result.parts ≡ parts }
    {
        EvenScale { parts }
    }
}

impl Scale for EvenScale {
    ghost weights = { λ s. replicate s.parts 1 };

    fn length(&self) -> usize {
        self.parts
    }

    fn weight(&self, part: usize) -> u32 {
        if (1..=self.parts).contains(&part) {
            1
        } else {
            0
        }
    }
}
