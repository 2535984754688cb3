// Net entries.
ghost use Rattle.entry.specs.Words.{Word, word, plus};
ghost use Rattle.entry.specs.Meanings.{net_value, net_of, net_opposed};
ghost use Rattle.entry.specs.Wrap;
ghost use Rattle.entry.specs.Wrap.{of_alike};

use crate::joining::Joining;
use crate::kinds::Net;
use crate::reversible::Reversible;
use crate::source::Source;

impl Joining for Net {
    ghost Value = { Word };

    ghost value = { net_value };

    ghost nothing = { word 0 };

    ghost joined = { plus };

    ghost assoc = { λ x y z. Wrap.assoc x y z };

    ghost comm = { λ x y. Wrap.comm x y };

    ghost unit = { λ x. Wrap.unit x };

    fn empty() -> Net {
        Net { units: 0 }
    }

    fn join(self, other: Net) -> Net {
        Net {
            units: self.units.wrapping_add(other.units),
        }
    }
}

impl Reversible for Net {
    ghost of = { net_of };

    ghost opposed = { net_opposed };

    ghost alike = { λ x y e. of_alike x.units y.units e };

    fn of_quantity(quantity: u32, _source: Source) -> Net {
        Net {
            units: i64::from(quantity),
        }
    }

    fn opposite(self) -> Net {
        Net {
            units: self.units.wrapping_neg(),
        }
    }
}
