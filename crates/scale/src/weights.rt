// A scale: a list of weights that is read part by part.
ghost use Rattle.std.specs.Prelude.{◌≡◌, ℕ, List, length};
ghost use Rattle.scale.specs.Weights.{weight_at};

pub trait Scale {
    // The weights, part 1 first.
    ghost weights: { Self → List ℕ };

    fn length(&self) -> usize
        ensures { result ≡ length (weights self.now) };

    // Parts count from 1; any other part weighs 0.
    fn weight(&self, part: usize) -> u32
        ensures { result ≡ weight_at (weights self.now) part };
}
