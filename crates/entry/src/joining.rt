// Joining kinds of entry.
ghost use Rattle.std.specs.Prelude.{◌≡◌};

// An entry means a value; the laws are of values, since entries that mean the same may be held differently.
pub trait Joining: Copy {
    ghost Value: { Type 0 };

    ghost value: { Self → Value };

    ghost nothing: { Value };

    ghost joined: { Value → Value → Value };

    fn empty() -> Self
        ensures { value result ≡ nothing };

    fn join(self, other: Self) -> Self
        ensures { value result ≡ joined (value self) (value other) };

    ghost assoc: { (x y z : Value) → joined (joined x y) z ≡ joined x (joined y z) };

    ghost comm: { (x y : Value) → joined x y ≡ joined y x };

    ghost unit: { (x : Value) → joined x nothing ≡ x };
}
