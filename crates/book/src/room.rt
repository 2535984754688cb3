// Whether one more contract of a seller can be in force.
ghost use Rattle.std.specs.Prelude.{◌≡◌, ◌+◌, ◌-◌, ◌≤◌, nat_le};
ghost use Rattle.std.specs.Option.{SomeIff};
ghost use Rattle.book.specs.Cuts.{stands_for};
ghost use Rattle.book.specs.Limits.{most_total};
ghost use Rattle.book.specs.Sound.{seller_total, sold_by};

use crate::contract::{Contract, MOST_TOTAL};

impl Contract {
    // Whether the contract is in force for the seller.
    pub fn sells(&self, seller: u16) -> bool
        ensures { result ≡ stands_for seller self.now }
    {
        self.in_force() && self.terms.seller == seller
    }

    // The amount, if the contract is in force for the seller.
    pub fn amount_sold(&self, seller: u16) -> u32
        ensures { result ≡ sold_by seller self.now }
    {
        if self.sells(seller) {
            self.terms.amount
        } else {
            0
        }
    }
}

// What the limit leaves beside the seller's amounts in force and this amount, if they stay within it. Any number of places may be
// handed in, so it ends at the place that passes the limit.
fn room_left(taken: &[Contract], seller: u16, amount: u32) -> Option<u64>
    ensures { SomeIff result (seller_total seller taken.now + amount ≤ most_total) (most_total - (seller_total seller taken.now + amount)) }
{
    let mut left = MOST_TOTAL.checked_sub(u64::from(amount))?;
    for contract in taken {
        left = left.checked_sub(u64::from(contract.amount_sold(seller)))?;
    }
    Some(left)
}

// Whether the seller's amounts in force and this amount stay within the limit together.
pub fn has_room(taken: &[Contract], seller: u16, amount: u32) -> bool
    ensures { result ≡ nat_le (seller_total seller taken.now + amount) most_total }
{
    room_left(taken, seller, amount).is_some()
}
