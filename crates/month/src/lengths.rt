// The four memories must be exactly as long as the month's sizes say.
ghost use Rattle.std.specs.Prelude.{◌≡◌, ◌*◌, ◌==◌, length};
ghost use Rattle.scale.specs.Refusals.{refusal_of, unless};
ghost use Rattle.ledger.specs.Checks.{length_check};

use crate::memories::Memories;
use book::sizes::Sizes;
use scale::fault::{Fault, Reason};

fn exact(length: usize, wanted: usize, spot: usize) -> Result<(), Fault>
    ensures { refusal_of result ≡ unless (length == wanted) 1 spot }
{
    if length == wanted {
        Ok(())
    } else {
        Err(Fault {
            reason: Reason::WrongLength,
            spot,
        })
    }
}

// Refuses the first memory of a wrong length.
pub(crate) fn check_lengths<E: Copy>(sizes: &Sizes, memories: Memories<'_, E>) -> Result<(), Fault>
    ensures { refusal_of result ≡ length_check sizes.now.agents sizes.now.hours sizes.now.places
        (length memories.entry.places.now) (length memories.entry.rows.now) (length memories.entry.shortfalls.now) (length memories.entry.board.now) }
{
    let size = usize::from(sizes.places());
    exact(memories.places.len(), size, 1)?;
    exact(memories.rows.len(), size * usize::from(sizes.hours()), 2)?;
    exact(memories.shortfalls.len(), usize::from(sizes.agents()), 3)?;
    check_board(sizes, memories.board.len())
}

// Refuses a board that has not an entry for each agent, submarket and hour.
pub(crate) fn check_board(sizes: &Sizes, board: usize) -> Result<(), Fault>
    ensures { refusal_of result ≡ unless (board == sizes.now.agents * 4 * sizes.now.hours) 1 4 }
{
    let entries = usize::from(sizes.agents()) * 4 * usize::from(sizes.hours());
    exact(board, entries, 4)
}
