// The cut rule: what a seller's shortfall leaves of its contracts in force, class after class.
ghost use Rattle.std.specs.Prelude.{◌≡◌, ℕ, ◌^◌, ◌<◌, ◌≤◌, map, length, MatchResult, slice_index, slice_index_or};
ghost use Rattle.scale.specs.Refusals.{refusal_of};
ghost use Rattle.scale.specs.Shares.{down_to};
ghost use Rattle.book.specs.Cuts.{claim_of, class_sum, cut_in, left, left_by, recut as cut_anew, recut_check};
ghost use Rattle.book.specs.Limits.{most_places, most_total};
ghost use Rattle.book.specs.Terms.{class_number};

use crate::classes::ClassScale;
use crate::contract::{Class, Contract, MOST_PLACES};
use crate::room::has_room;
use scale::fault::{Fault, Reason};

// Leaves a contract that counts its amount less its share.
// Here and below places are written, which a `ClassScale` only reads, so the seller and the class stand beside them.
fn leave(contract: &mut Contract, seller: u16, class: Class, share: u32)
    requires { share ≤ contract.old.terms.amount }
    ensures { contract.new ≡ left seller (class_number class) share contract.old }
{
    if contract.sells_in(seller, class) {
        contract.effective = contract.terms.amount - share;
    }
}

// Leaves each contract that counts its amount less its share.
fn leave_each(taken: &mut [Contract], seller: u16, class: Class, shares: &[u32])
    requires lengths { length shares.now ≡ length taken.old }
    requires within { (i : ℕ) (d : Contract) → i < length taken.old → slice_index shares.now i ≤ (slice_index_or taken.old i d).terms.amount }
    ensures { taken.new ≡ left_by seller (class_number class) shares.now taken.old }
{
    // by index: after a loop over `iter_mut().zip(..)` nothing is known of the places, so the cut that it left was not proved
    for (i, contract) in taken.iter_mut().enumerate() {
        leave(contract, seller, class, shares[i]);
    }
}

// Cuts a class of a seller.
fn cut_class(taken: &mut [Contract], seller: u16, class: Class, cut: u32)
    requires places { length taken.old ≤ most_places }
    requires most { cut ≤ class_sum seller (map claim_of taken.old) (class_number class) }
    requires moderate { class_sum seller (map claim_of taken.old) (class_number class) ≤ most_total }
    ensures { taken.new ≡ cut_in down_to seller (class_number class) cut taken.old }
{
    // the shares of at most so many places stand in fixed memory, since the library allocates nothing
    let mut room = [0u32; MOST_PLACES];
    let shares = &mut room[..taken.len()];
    ClassScale::new(taken, seller, class).share_cut(cut, shares);
    leave_each(taken, seller, class, shares);
}

// Sets the effective amount of each of the seller's contracts in force by the cut rule: each class in turn gives up
// the lesser of what remains of the shortfall and its amounts; the last is never cut. A refusal leaves all as it was.
pub fn recut(taken: &mut [Contract], seller: u16, shortfall: u64) -> Result<(), Fault>
    ensures refused { refusal_of result ≡ recut_check seller taken.old }
    ensures memory { MatchResult result (λ _. taken.new ≡ cut_anew down_to seller shortfall taken.old) (λ _. taken.new ≡ taken.old) }
{
    if taken.len() > MOST_PLACES {
        return Err(Fault {
            reason: Reason::WrongLength,
            spot: 1,
        });
    }
    // what is in force alone may be over the limit, with nothing added
    if !has_room(taken, seller, 0) {
        return Err(Fault {
            reason: Reason::SellerOverLimit,
            spot: 0,
        });
    }
    let mut rest = shortfall;
    for class in [Class::Free, Class::Retail, Class::Regulated] {
        let cut = rest.min(ClassScale::new(taken, seller, class).amounts());
        cut_class(taken, seller, class, cut as u32);
        rest -= cut;
    }
    cut_class(taken, seller, Class::Plant, 0);
    Ok(())
}
