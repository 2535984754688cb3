// Entries by source.
ghost use Rattle.entry.specs.Words.{Words, no_words, plus_both};
ghost use Rattle.entry.specs.Meanings.{by_source_value, by_source_of, by_source_opposed};
ghost use Rattle.entry.specs.Wrap.{assoc_both, comm_both, unit_both, of_alike};
ghost use Rattle.std.proofs.Common.{ap};

use crate::joining::Joining;
use crate::kinds::BySource;
use crate::reversible::Reversible;
use crate::source::Source;

impl Joining for BySource {
    ghost Value = { Words };

    ghost value = { by_source_value };

    ghost nothing = { no_words };

    ghost joined = { plus_both };

    ghost assoc = { λ x y z. assoc_both x y z };

    ghost comm = { λ x y. comm_both x y };

    ghost unit = { λ x. unit_both x };

    fn empty() -> BySource {
        BySource {
            conventional: 0,
            incentivised: 0,
        }
    }

    fn join(self, other: BySource) -> BySource {
        BySource {
            conventional: self.conventional.wrapping_add(other.conventional),
            incentivised: self.incentivised.wrapping_add(other.incentivised),
        }
    }
}

impl Reversible for BySource {
    ghost of = { by_source_of };

    ghost opposed = { by_source_opposed };

    ghost alike = { λ x y e.
        let first = of_alike x.conventional y.conventional (ap (λ (w : Words). w.0) e) in
        let second = of_alike x.incentivised y.incentivised (ap (λ (w : Words). w.1) e) in
        λ i. (first i, second i) };

    fn of_quantity(quantity: u32, source: Source) -> BySource {
        let (conventional, incentivised) = match source {
            Source::Conventional => (i64::from(quantity), 0),
            Source::Incentivised => (0, i64::from(quantity)),
        };
        BySource {
            conventional,
            incentivised,
        }
    }

    fn opposite(self) -> BySource {
        BySource {
            conventional: self.conventional.wrapping_neg(),
            incentivised: self.incentivised.wrapping_neg(),
        }
    }
}
