// The clip: another scale from a first to a last part, the rest weighing 0.
ghost use Rattle.std.specs.Prelude.{◌≡◌};
ghost use Rattle.scale.specs.Weights.{clipped};

use crate::weights::Scale;

#[derive(Drop)]
pub struct Clip<'a, S> {
    scale: &'a S,
    first: usize,
    last: usize,
}

impl<'a, S: Scale> Clip<'a, S> {
    pub fn new(scale: &'a S, first: usize, last: usize) -> Clip<'a, S>
        ensures { (result.scale.now ≡ scale.now) × ((result.first ≡ first) × (result.last ≡ last)) }
    {
        Clip { scale, first, last }
    }
}

impl<S: Scale> Scale for Clip<'_, S> {
    ghost weights = { λ s. clipped s.first s.last (S.Scale.weights s.scale.now) };

    fn length(&self) -> usize {
        self.scale.length()
    }

    fn weight(&self, part: usize) -> u32 {
        if (self.first..=self.last).contains(&part) {
            self.scale.weight(part)
        } else {
            0
        }
    }
}
