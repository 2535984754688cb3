// Who sells to whom, and where.
ghost use Rattle.std.specs.Prelude.{◌≡◌};
ghost use Rattle.board.specs.Lanes.{sold_back};

use entry::source::Source;

// The submarket is a number, since a deal may name any: one that is not on the board is told so.
#[derive(Clone, Copy, PartialEq, Eq, Debug)]
pub struct Deal {
    pub seller: u16,
    pub buyer: u16,
    pub submarket: u16,
    pub source: Source,
}

impl Deal {
    // The deal by which the buyer sells back what it bought.
    pub fn reversed(&self) -> Deal
        ensures { result ≡ sold_back self.now }
    {
        Deal {
            seller: self.buyer,
            buyer: self.seller,
            ..*self
        }
    }
}
