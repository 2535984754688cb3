// The board follows the book: what contracts no longer deliver is taken off, and what they now deliver is added.
#![tactic(auto)]

ghost use Rattle.std.specs.Prelude.{◌≡◌, ◌<◌, ◌≤◌, length, IfSome};
ghost use Rattle.entry.specs.Kinds.{meaning, values};
ghost use Rattle.book.specs.Cuts.{recut as recut_by};
ghost use Rattle.book.specs.Limits.{most_places, most_total};
ghost use Rattle.book.specs.Sound.{seller_total};
ghost use Rattle.ledger.specs.Boards.{changes, stays as unmoved, AllCancel, Revised};
ghost use Rattle.ledger.specs.Calls.{rounding};
ghost use Rattle.settle.specs.Following.{contract_deal, delivers, BothCancel, Joined, Movable};
ghost use Rattle.settle.specs.Settled.{booked, marked, Ready};

#[cfg(test)]
mod tests;

use board::deal::Deal;
use board::{add, take_off};
use book::contract::{BLANK, Contract, MOST_PLACES};
use book::cuts::recut;
use book::sizes::Sizes;
use entry::joining::Joining;
use entry::reversible::Reversible;
use scale::row::RowScale;
use scale::share::share;

// The most hours that a month has.
const MOST_HOURS: usize = 744;

// Who sells to whom under a contract, and where. No `From`: trait, contract and deal are all of other crates.
fn deal_of(contract: &Contract) -> Deal
    ensures { result ≡ contract_deal contract.now }
{
    Deal {
        seller: contract.terms.seller,
        buyer: contract.terms.buyer,
        submarket: contract.terms.submarket,
        source: contract.terms.source,
    }
}

// Whether a contract is in force before and after with the same effective amount.
fn is_unmoved(old: &Contract, new: &Contract) -> bool
    ensures { result ≡ unmoved old.now new.now }
{
    old.in_force() && new.in_force() && old.effective == new.effective
}

// Which way a contract's quantities go: on to the board, or off it again.
#[derive(Clone, Copy, PartialEq, Eq, Debug)]
enum Way {
    On,
    Off,
}

// Moves a contract's quantities on to the board or off it, if the contract is in force.
fn deliver<E: Reversible>(
    contract: &Contract,
    way: Way,
    row: &[u32],
    quantities: &mut [u32],
    board: &mut [E],
)
    requires room { length quantities.old ≡ length row.now }
    requires movable { Movable (length board.old) row.now contract.now }
    ensures cells { Joined (meaning E.Joining E.Reversible.own) (length row.now) (delivers (meaning E.Joining E.Reversible.own) rounding contract.now way row.now) (values E.Joining board.old) (values E.Joining board.new) }
    ensures cancels { AllCancel (meaning E.Joining E.Reversible.own) rounding (length row.now) contract.now row.now }
{
    if contract.in_force() {
        // Neither the sharing nor the move refuses a contract that can be moved.
        share(contract.effective, &RowScale::new(row), quantities).unwrap();
        let deal = deal_of(contract);
        match way {
            Way::On => add(board, &deal, quantities).unwrap(),
            Way::Off => take_off(board, &deal, quantities).unwrap(),
        }
    }
}

// Moves the board for one place: what the old contract delivered is taken off, and what the new one delivers is added.
fn move_place<E: Reversible>(
    old: &Contract,
    new: &Contract,
    row: &[u32],
    quantities: &mut [u32],
    board: &mut [E],
)
    requires room { length quantities.old ≡ length row.now }
    requires leaves { Movable (length board.old) row.now old.now }
    requires enters { Movable (length board.old) row.now new.now }
    ensures cells { Joined (meaning E.Joining E.Reversible.own) (length row.now) (changes (meaning E.Joining E.Reversible.own) rounding old.now row.now new.now row.now) (values E.Joining board.old) (values E.Joining board.new) }
    ensures cancels { BothCancel (meaning E.Joining E.Reversible.own) row.now old.now new.now }
{
    if !is_unmoved(old, new) {
        deliver(old, Way::Off, row, quantities, board);
        deliver(new, Way::On, row, quantities, board);
    }
}

// Moves the board for every place whose contract was `old` and is `new`. What is asked (`Ready`) is of four slices that the host
// lends one by one, so no struct holds it.
fn revise<E: Reversible>(
    sizes: &Sizes,
    old: &[Contract],
    new: &[Contract],
    rows: &[u32],
    board: &mut [E],
)
    requires { Ready sizes.now old.now new.now rows.now (length board.old) }
    ensures { Revised (meaning E.Joining E.Reversible.own) rounding
        (booked sizes.now old.now rows.now (values E.Joining board.old))
        (booked sizes.now new.now rows.now (values E.Joining board.new)) }
{
    let hours = sizes.hours() as usize;
    // Fixed memory, since the library allocates nothing.
    let mut scratch = [0u32; MOST_HOURS];
    let quantities = &mut scratch[0..hours];
    for ((before, after), row) in old.iter().zip(new).zip(rows.chunks_exact(hours)) {
        move_place(before, after, row, quantities, board);
    }
}

// Puts the contract that an event changed at its place, if it changed one.
fn mark(contracts: &mut [Contract], changed: Option<(usize, Contract)>)
    requires { IfSome changed (λ change. change.0 < length contracts.old) }
    ensures { contracts.new ≡ marked changed contracts.old }
{
    if let Some((index, contract)) = changed {
        contracts[index] = contract;
    }
}

// Resettles a seller: after its shortfall was told, when no contract changes but by the cuts, or after a contract of its was
// confirmed or ended, when this contract stands changed at its place.
pub fn settle<E: Reversible>(
    sizes: &Sizes,
    taken: &mut [Contract],
    changed: Option<(usize, Contract)>,
    seller: u16,
    shortfall: u64,
    rows: &[u32],
    board: &mut [E],
)
    requires inside { IfSome changed (λ change. change.0 < length taken.old) }
    requires ready { Ready sizes.now taken.old (marked changed taken.old) rows.now (length board.old) }
    requires places { length taken.old ≤ most_places }
    requires moderate { seller_total seller (marked changed taken.old) ≤ most_total }
    ensures taken { taken.new ≡ recut_by rounding seller shortfall (marked changed taken.old) }
    ensures board { Revised (meaning E.Joining E.Reversible.own) rounding
        (booked sizes.now taken.old rows.now (values E.Joining board.old))
        (booked sizes.now taken.new rows.now (values E.Joining board.new)) }
{
    // Fixed memory, since the library allocates nothing.
    let mut room = [BLANK; MOST_PLACES];
    let after = &mut room[0..taken.len()];
    after.copy_from_slice(taken);
    mark(after, changed);
    // Within the limits the cut refuses nothing.
    recut(after, seller, shortfall).unwrap();
    revise(sizes, taken, after, rows, board);
    taken.copy_from_slice(after);
}
