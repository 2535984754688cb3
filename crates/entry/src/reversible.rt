// Reversible kinds of entry, which the board accepts.
ghost use Rattle.std.specs.Prelude.{◌≡◌, ℕ};
ghost use Rattle.entry.specs.declared.source.Source.{Source};

use crate::joining::Joining;
use crate::source::Source;

// A joining kind with the entry of a quantity, and an opposite.
pub trait Reversible: Joining {
    ghost of: { ℕ → Source → Self };

    ghost opposed: { Self → Self };

    fn of_quantity(quantity: u32, source: Source) -> Self
        ensures { Self.Joining.value result ≡ Self.Joining.value (of quantity source) };

    // An entry joined with its opposite is empty.
    fn opposite(self) -> Self
        ensures is { Self.Joining.value result ≡ Self.Joining.value (opposed self) }
        ensures cancels { Self.Joining.joined (Self.Joining.value self) (Self.Joining.value result) ≡ Self.Joining.nothing };

    // Entries that mean the same have opposites that mean the same.
    ghost alike: { (x y : Self) → Self.Joining.value x ≡ Self.Joining.value y → Self.Joining.value (opposed x) ≡ Self.Joining.value (opposed y) };
}
