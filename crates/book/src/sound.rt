// Whether a book that is handed in is sound.
ghost use Rattle.std.specs.Prelude.{◌≡◌, ℕ, ◌+◌, ◌≤◌, true, length, sum, MatchResult, nat_le, slice_index};
ghost use Rattle.book.specs.Limits.{most_total};
ghost use Rattle.book.specs.Sound.{SoundBook, each_moderate, book_check, sold_by, is_sound_alone};
ghost use Rattle.book.specs.Terms.{Acceptable, fields};
ghost use Rattle.scale.specs.Refusals.{refusal_of};

use crate::contract::{Contract, MOST_TOTAL};
use crate::sizes::Sizes;
use scale::fault::{Fault, Reason};

// The total of a row. The numbers are summed in 32 bits, where they may wrap, and their upper halves once more, which in so
// many hours cannot; the two tell the total. Twice as many numbers go into a vector as with a sum of 64 bits.
fn row_total(row: &[u32]) -> u64
    requires { length row.now ≤ 744 }
    ensures { result ≡ sum row.now }
{
    let mut all: u32 = 0;
    let mut high: u32 = 0;
    for quantity in row {
        all = all.wrapping_add(*quantity);
        high += *quantity / 65_536;
    }
    let low = all.wrapping_sub(high.wrapping_mul(65_536));
    high as u64 * 65_536 + low as u64
}

// Whether a shortfall, or a seller's total, is within the limit.
pub fn moderate(total: u64) -> bool
    ensures { result ≡ nat_le total most_total }
{
    total <= MOST_TOTAL
}

// Whether no shortfall passes the limit.
fn all_moderate(shortfalls: &[u64]) -> bool
    ensures { result ≡ each_moderate shortfalls.now }
{
    shortfalls.iter().all(|shortfall| moderate(*shortfall))
}

// Whether a contract is sound as far as it and its row tell.
fn sound_alone(sizes: &Sizes, row: &[u32], contract: &Contract) -> bool
    requires { length row.now ≤ 744 }
    ensures sound { result ≡ is_sound_alone sizes.now row.now contract.now }
    ensures terms { result ≡ true → Acceptable sizes.now (fields contract.now.terms) }
{
    let terms = &contract.terms;
    terms.fields().check(sizes).is_ok()
        && contract.effective <= terms.amount
        && (!contract.in_force() || row_total(row) == terms.amount as u64)
}

// Adds a contract's amount, if it is in force, to the total of its seller, and says whether that is still within the limit. No error:
// the caller tells this fault of a book as it tells the others, at the contract's place.
// The totals stand by agent number in fixed memory, since the library allocates nothing.
fn tally(totals: &mut [u64; 65], contract: &Contract) -> bool
    requires seller { contract.now.terms.seller ≤ 64 }
    requires moderate { slice_index totals.old contract.now.terms.seller ≤ most_total }
    ensures within { result ≡ nat_le (slice_index totals.new contract.now.terms.seller) most_total }
    ensures after { (s : ℕ) → s ≤ 64 → slice_index totals.new s ≡ slice_index totals.old s + sold_by s contract.now }
{
    let seller = contract.terms.seller as usize;
    if contract.in_force() {
        totals[seller] += contract.terms.amount as u64;
    }
    moderate(totals[seller])
}

// Refuses an unsound book: a shortfall above the limit, or else the first taken place that breaks a rule. One pass over the places.
pub fn examine(
    sizes: &Sizes,
    taken: &[Contract],
    rows: &[u32],
    shortfalls: &[u64],
) -> Result<(), Fault>
    ensures refused { refusal_of result ≡ book_check sizes.now taken.now rows.now shortfalls.now }
    ensures sound { MatchResult result (λ _. SoundBook sizes.now taken.now rows.now shortfalls.now) (λ _. SoundBook sizes.now taken.now rows.now shortfalls.now → ⊥) }
{
    if !all_moderate(shortfalls) {
        return Err(Fault {
            reason: Reason::UnsoundBook,
            spot: 0,
        });
    }
    let hours = sizes.hours() as usize;
    let mut totals = [0u64; 65];
    let mut rest = rows;
    for (i, contract) in taken.iter().enumerate() {
        // split off and not zipped with chunks: the rows may be too few, and each place left without one is still examined
        let (row, after) = rest.split_at(hours.min(rest.len()));
        rest = after;
        if !sound_alone(sizes, row, contract) || !tally(&mut totals, contract) {
            return Err(Fault {
                reason: Reason::UnsoundBook,
                spot: i + 1,
            });
        }
    }
    Ok(())
}
