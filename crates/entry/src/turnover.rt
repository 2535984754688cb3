// Turnover, which only joins.
ghost use Rattle.entry.specs.Words.{Words, no_words, plus_both};
ghost use Rattle.entry.specs.Meanings.{turnover_value};
ghost use Rattle.entry.specs.Wrap.{assoc_both, comm_both, unit_both};

use crate::joining::Joining;
use crate::kinds::Turnover;

impl Joining for Turnover {
    ghost Value = { Words };

    ghost value = { turnover_value };

    ghost nothing = { no_words };

    ghost joined = { plus_both };

    ghost assoc = { λ x y z. assoc_both x y z };

    ghost comm = { λ x y. comm_both x y };

    ghost unit = { λ x. unit_both x };

    fn empty() -> Turnover {
        Turnover { sold: 0, bought: 0 }
    }

    fn join(self, other: Turnover) -> Turnover {
        Turnover {
            sold: self.sold.wrapping_add(other.sold),
            bought: self.bought.wrapping_add(other.bought),
        }
    }
}
