// The class scale: the amounts that a cut of one seller's class is shared over.
ghost use Rattle.std.specs.Prelude.{◌≡◌, ◌≤◌, map, length, replicate};
ghost use Rattle.scale.specs.Shares.{down_to, shares_of};
ghost use Rattle.book.specs.Cuts.{claim_of, class_sum, class_weights, counts, weight as weight_of};
ghost use Rattle.book.specs.Limits.{most_places, most_total};
ghost use Rattle.book.specs.Terms.{class_number};

use crate::contract::{Class, Contract};
use scale::share::share;
use scale::weights::Scale;

// One part for each taken place, which weighs its amount if it is in force for the seller, in the class.
#[derive(Drop)]
pub struct ClassScale<'a> {
    taken: &'a [Contract],
    seller: u16,
    class: Class,
}

impl<'a> ClassScale<'a> {
    pub fn new(taken: &'a [Contract], seller: u16, class: Class) -> ClassScale<'a>
        ensures taken { result.taken.now ≡ taken.now }
        ensures seller { result.seller ≡ seller }
        ensures class { result.class ≡ class }
    {
        ClassScale {
            taken,
            seller,
            class,
        }
    }

    // The seller's amounts in force in the class.
    pub(crate) fn amounts(&self) -> u64
        requires { length self.now.taken.now ≤ most_places }
        ensures { result ≡ class_sum self.now.seller (map claim_of self.now.taken.now) (class_number self.now.class) }
    {
        self.taken
            .iter()
            .map(|contract| u64::from(contract.amount_in(self.seller, self.class)))
            .sum()
    }

    // Shares a cut of the class over the seller's contracts. Where nothing is cut the shares stay 0, since the class may weigh nothing.
    // A cut above 0 is no more than the class weighs, so the sharing is never refused.
    pub(crate) fn share_cut(&self, cut: u32, shares: &mut [u32])
        requires most { cut ≤ class_sum self.now.seller (map claim_of self.now.taken.now) (class_number self.now.class) }
        requires moderate { class_sum self.now.seller (map claim_of self.now.taken.now) (class_number self.now.class) ≤ most_total }
        requires zeros { shares.old ≡ replicate (length self.now.taken.now) 0 }
        ensures { shares.new ≡ shares_of down_to cut (class_weights self.now.seller (class_number self.now.class) (map claim_of self.now.taken.now)) }
    {
        if cut > 0 {
            share(cut, self, shares).unwrap();
        }
    }
}

impl Contract {
    // Whether the contract is in force for a seller, in a class.
    pub fn sells_in(&self, seller: u16, class: Class) -> bool
        ensures { result ≡ counts seller (class_number class) (claim_of self.now) }
    {
        self.sells(seller) && self.terms.class == class
    }

    // What the contract weighs for a seller, in a class.
    pub fn amount_in(&self, seller: u16, class: Class) -> u32
        ensures { result ≡ weight_of seller (class_number class) (claim_of self.now) }
    {
        if self.sells_in(seller, class) {
            self.terms.amount
        } else {
            0
        }
    }
}

impl Scale for ClassScale<'_> {
    ghost weights = { λ s. class_weights s.seller (class_number s.class) (map claim_of s.taken.now) };

    fn length(&self) -> usize {
        self.taken.len()
    }

    fn weight(&self, part: usize) -> u32 {
        match part.checked_sub(1).and_then(|index| self.taken.get(index)) {
            Some(contract) => contract.amount_in(self.seller, self.class),
            None => 0,
        }
    }
}
