// The row scale: weights lent for reading.
ghost use Rattle.std.specs.Prelude.{◌≡◌};

use crate::weights::Scale;

#[derive(Drop)]
pub struct RowScale<'a> {
    row: &'a [u32],
}

impl<'a> RowScale<'a> {
    pub fn new(row: &'a [u32]) -> RowScale<'a>
        ensures { result.row.now ≡ row.now }
    {
        RowScale { row }
    }
}

impl Scale for RowScale<'_> {
    ghost weights = { λ s. s.row.now };

    fn length(&self) -> usize {
        self.row.len()
    }

    fn weight(&self, part: usize) -> u32 {
        part.checked_sub(1)
            .and_then(|index| self.row.get(index))
            .copied()
            .unwrap_or(0)
    }
}
