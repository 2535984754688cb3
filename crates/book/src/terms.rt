// Terms and offers: the limits of their fields.
ghost use Rattle.std.specs.Prelude.{◌≡◌, IfOk, OnOk};
ghost use Rattle.scale.specs.declared.fault.Reason.TheVariants.{FieldOutside};
ghost use Rattle.book.specs.Terms.{Acceptable, fields as as_numbers, offer_checks};
ghost use Rattle.scale.specs.Refusals.{first_of, refusal_of};

use crate::contract::{Class, MOST_AMOUNT, MOST_NUMBER, Offer, Terms};
use crate::limit::limit;
use crate::sizes::Sizes;
use entry::source::Source;
use scale::fault::{Fault, Reason};

impl Terms {
    // The terms as plain numbers. A method, since the rules speak of a contract's fields by this name.
    pub fn fields(&self) -> Offer
        ensures { result ≡ as_numbers self.now }
    {
        Offer {
            number: self.number,
            seller: self.seller,
            buyer: self.buyer,
            submarket: self.submarket,
            class: self.class.into(),
            source: self.source.into(),
            first: self.first,
            last: self.last,
            amount: self.amount,
        }
    }
}

impl Offer {
    // Refuses the first field outside its limits, and then a seller who is the buyer.
    pub fn check(&self, sizes: &Sizes) -> Result<(), Fault>
        ensures refused { refusal_of result ≡ first_of (offer_checks sizes.now self.now) }
        ensures accepts { OnOk result (Acceptable sizes.now self.now) }
    {
        self.terms(sizes).map(|_| ())
    }

    // The terms of an offer, or the refusal of its first check that fails.
    pub fn terms(&self, sizes: &Sizes) -> Result<Terms, Fault>
        ensures refused { refusal_of result ≡ first_of (offer_checks sizes.now self.now) }
        ensures holds { IfOk result (λ t. as_numbers t ≡ self.now) }
        ensures accepts { OnOk result (Acceptable sizes.now self.now) }
    {
        let agents = sizes.agents().into();
        let hours = sizes.hours().into();
        let first = self.first.into();
        limit(self.number.into(), 1, MOST_NUMBER, Reason::FieldOutside, 1)?;
        limit(self.seller.into(), 1, agents, Reason::FieldOutside, 2)?;
        limit(self.buyer.into(), 1, agents, Reason::FieldOutside, 3)?;
        limit(self.submarket.into(), 1, 4, Reason::FieldOutside, 4)?;
        let class = Class::try_from(self.class).map_err(|_| outside(5))?;
        let source = Source::try_from(self.source).map_err(|_| outside(6))?;
        limit(first, 1, hours, Reason::FieldOutside, 7)?;
        limit(self.last.into(), first, hours, Reason::FieldOutside, 8)?;
        limit(self.amount, 1, MOST_AMOUNT, Reason::FieldOutside, 9)?;
        if self.seller == self.buyer {
            return Err(Fault {
                reason: Reason::SellerIsBuyer,
                spot: 0,
            });
        }
        Ok(Terms {
            number: self.number,
            seller: self.seller,
            buyer: self.buyer,
            submarket: self.submarket,
            class,
            source,
            first: self.first,
            last: self.last,
            amount: self.amount,
        })
    }
}

// The refusal of a field that is outside its limits.
fn outside(spot: usize) -> Fault
    ensures reason { result.reason ≡ FieldOutside }
    ensures spot { result.spot ≡ spot }
{
    Fault {
        reason: Reason::FieldOutside,
        spot,
    }
}
