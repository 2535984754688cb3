// Offering a contract.
ghost use Rattle.std.specs.Prelude.{◌≡◌};
ghost use Rattle.scale.specs.Refusals.{refusal_of};
ghost use Rattle.book.specs.Lookup.{place_of};
ghost use Rattle.entry.specs.Kinds.{meaning};
ghost use Rattle.ledger.specs.Calls.{Offering};
ghost use Rattle.ledger.specs.Checks.{free};
ghost use Rattle.ledger.specs.Lives.{LeadsOn};
ghost use Rattle.ledger.specs.Past.{offering};
ghost use Rattle.month.specs.Months.{state_of};

use super::{Month, Open};
use crate::memories::Memories;
use book::contract::{Contract, Offer};
use book::lookup::find;
use entry::reversible::Reversible;
use scale::fault::{Fault, Reason};

// Refuses a number that a taken place has, at that place.
fn unused(taken: &[Contract], offer: &Offer) -> Result<(), Fault>
    ensures { refusal_of result ≡ free (place_of offer.now.number taken.now) }
{
    match find(taken, offer.number) {
        Some(spot) => Err(Fault {
            reason: Reason::NumberTaken,
            spot,
        }),
        None => Ok(()),
    }
}

impl Month<Open> {
    // The checks of an offer in their order, and then the next place is taken. Apart from `offer`, so that each way out need not
    // show the law on lives.
    fn take_place<E: Reversible>(
        &mut self,
        places: &mut [Contract],
        rows: &[u32],
        shortfalls: &[u64],
        board: &[E],
        offer: Offer,
    ) -> Result<(), Fault>
        ensures { Offering offer (refusal_of result)
            (state_of E.Joining self.old places.old rows.now shortfalls.now board.now)
            (state_of E.Joining self.new places.new rows.now shortfalls.now board.now) }
    {
        let memories = Memories {
            places,
            rows,
            shortfalls,
            board,
        };
        self.admit(memories)?;
        let terms = offer.terms(&self.sizes)?;
        unused(self.contracts(places), &offer)?;
        if self.taken >= self.sizes.places() {
            return Err(Fault {
                reason: Reason::NoPlaceLeft,
                spot: 0,
            });
        }
        places[usize::from(self.taken)] = Contract::offered(terms);
        self.taken += 1;
        Ok(())
    }

    // Offers a contract. It takes the next place, offered, with nothing of its amount effective; its row is not written.
    pub fn offer<E: Reversible>(
        &mut self,
        places: &mut [Contract],
        rows: &[u32],
        shortfalls: &[u64],
        board: &[E],
        offer: Offer,
    ) -> Result<(), Fault>
        ensures step { Offering offer (refusal_of result)
            (state_of E.Joining self.old places.old rows.now shortfalls.now board.now)
            (state_of E.Joining self.new places.new rows.now shortfalls.now board.now) }
        ensures life { LeadsOn (meaning E.Joining E.Reversible.own) (offering offer) (refusal_of result)
            (state_of E.Joining self.old places.old rows.now shortfalls.now board.now)
            (state_of E.Joining self.new places.new rows.now shortfalls.now board.now) }
    {
        self.take_place(places, rows, shortfalls, board, offer)
    }
}
