// A seller is resettled: its effective amounts, the places and the board.
ghost use Rattle.std.specs.Prelude.{◌≡◌, ◌-◌, ◌<◌, ◌≤◌, length, take, slice_index, IfSome};
ghost use Rattle.entry.specs.Kinds.{meaning, values};
ghost use Rattle.book.specs.Limits.{most_total};
ghost use Rattle.book.specs.Sound.{seller_total};
ghost use Rattle.month.specs.Settling.{Settled};
ghost use Rattle.settle.specs.Settled.{marked, Ready};

use super::Month;
use book::contract::Contract;
use entry::joining::Joining;
use entry::reversible::Reversible;
use settle::settle;

// The shortfall of an agent, who counts from 1.
fn shortfall_of(shortfalls: &[u64], agent: u16) -> u64
    ensures { result ≡ slice_index shortfalls.now (agent - 1) }
{
    let index = usize::from(agent).saturating_sub(1);
    shortfalls.get(index).copied().unwrap_or(0)
}

impl<P> Month<P> {
    // Resettles a seller after an event that left a contract changed at its index, or none but by the cuts.
    pub(super) fn resettle<E: Reversible>(
        &self,
        places: &mut [Contract],
        changed: Option<(usize, Contract)>,
        seller: u16,
        shortfalls: &[u64],
        rows: &[u32],
        board: &mut [E],
    )
        requires room { self.now.taken ≤ length places.old }
        requires inside { IfSome changed (λ change. change.0 < self.now.taken) }
        requires ready { Ready self.now.sizes (take self.now.taken places.old) (marked changed (take self.now.taken places.old)) rows.now (length board.old) }
        requires moderate { seller_total seller (marked changed (take self.now.taken places.old)) ≤ most_total }
        ensures { Settled (meaning E.Joining E.Reversible.own) self.now.sizes self.now.taken seller (slice_index shortfalls.now (seller - 1))
            (marked changed (take self.now.taken places.old)) rows.now
            places.old places.new (values E.Joining board.old) (values E.Joining board.new) }
    {
        settle(
            &self.sizes,
            &mut places[..usize::from(self.taken)],
            changed,
            seller,
            shortfall_of(shortfalls, seller),
            rows,
            board,
        );
    }
}
