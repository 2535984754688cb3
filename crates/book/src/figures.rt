// Figures worked by hand.
ghost use Rattle.std.specs.Prelude.{◌≡◌, true, length, take};
ghost use Rattle.book.specs.Figures.{all_given, down_figures};
ghost use Rattle.scale.specs.Shares.{down_to};

// The definitions of sharing and of cutting give the figures. It is there for its clause, and answers 0.
pub fn figures_hold() -> u8
    ensures { all_given down_to down_figures ≡ true }
{
    0
}

// The same, answering how many there are.
pub fn figures_counted() -> usize
    ensures given { all_given down_to (take result down_figures) ≡ true }
    ensures all { result ≡ length down_figures }
{
    8
}
