// Reading an entry of either kind as the account's position.
use entry::joining::Joining;
use entry::kinds::{BySource, Net};
use entry::reversible::Reversible;
use model::ledger::Position;

pub trait Kind: Reversible {
    // Whether an entry says that so much of either source was sold less bought.
    fn says(self, wanted: Position) -> bool;
}

impl Kind for Net {
    fn says(self, wanted: Position) -> bool {
        self.units == wanted.conventional.wrapping_add(wanted.incentivised)
    }
}

impl Kind for BySource {
    fn says(self, wanted: Position) -> bool {
        self.conventional == wanted.conventional && self.incentivised == wanted.incentivised
    }
}
