// Opening a month.
ghost use Rattle.std.specs.Prelude.{◌≡◌, length, MatchResult};
ghost use Rattle.scale.specs.Refusals.{refusal_of};
ghost use Rattle.entry.specs.Kinds.{meaning};
ghost use Rattle.book.specs.Sizing.{Holds};
ghost use Rattle.ledger.specs.Calls.{Opened};
ghost use Rattle.ledger.specs.Checks.{open_refusal};
ghost use Rattle.ledger.specs.Lives.{Begins};
ghost use Rattle.month.specs.Months.{state_of};

use super::{Month, Open};
use crate::lengths::check_lengths;
use crate::memories::Memories;
use book::contract::Contract;
use book::sizes::Sizes;
use entry::reversible::Reversible;
use scale::fault::Fault;
use std::marker::PhantomData;

impl Month<Open> {
    // Opens a month: no place is taken, every shortfall is 0 and every entry empty; places and rows stay as they are.
    pub fn open<E: Reversible>(
        agents: u16,
        hours: u16,
        size: u16,
        places: &[Contract],
        rows: &[u32],
        shortfalls: &mut [u64],
        board: &mut [E],
    ) -> Result<Month<Open>, Fault>
        ensures answer { refusal_of result ≡ open_refusal agents hours size (length places.now) (length rows.now) (length shortfalls.old) (length board.old) }
        ensures opened { MatchResult result
            (λ m. Holds m.sizes agents hours size × Opened (meaning E.Joining E.Reversible.own) (state_of E.Joining m places.now rows.now shortfalls.new board.new)
            × Begins (meaning E.Joining E.Reversible.own) (state_of E.Joining m places.now rows.now shortfalls.new board.new))
            (λ _. (shortfalls.new ≡ shortfalls.old) × (board.new ≡ board.old)) }
    {
        let sizes = Sizes::new(agents, hours, size)?;
        let memories = Memories {
            places,
            rows,
            shortfalls,
            board,
        };
        check_lengths(&sizes, memories)?;
        shortfalls.fill(0);
        // `fill` would ask that a clone never fails, which a kind of entry does not say.
        let empty = E::empty();
        board.fill_with(|| empty);
        Ok(Month {
            sizes,
            taken: 0,
            phase: PhantomData,
        })
    }
}
