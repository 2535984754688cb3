// Opening a session's month, and closing it.
ghost use Rattle.std.specs.Prelude.{◌≡◌, IfOk};
ghost use Rattle.scale.specs.Refusals.{refusal_of};
ghost use Rattle.entry.specs.Kinds.{meaning};
ghost use Rattle.session.specs.Held.{held_of};
ghost use Rattle.session.specs.Opening.{memory_check, opening_refusal, Fresh, LongAs};
ghost use Rattle.session.specs.Closing.{Shut, is_idle, taken_at};

use super::calls::OUT_OF_TURN;
use super::{AGENTS, Desk, ENTRIES, HOURS, Lengths, PLACES, ROWS};
use crate::stage::Stage;
use book::contract::BLANK;
use book::sizes::Sizes;
use entry::reversible::Reversible;
use month::phase::Month;
use scale::fault::{Fault, Reason};
use std::mem::replace;

impl Lengths {
    // How much of each memory a month needs; one that needs more than there is, is refused.
    fn of(agents: u16, hours: u16, size: u16) -> Result<Lengths, Fault>
        ensures refused { refusal_of result ≡ memory_check agents hours size }
        ensures long { IfOk result (LongAs agents hours size) }
    {
        let a = agents as usize;
        let h = hours as usize;
        let p = size as usize;
        if a > AGENTS || h > HOURS || p > PLACES {
            return Err(Fault {
                reason: Reason::WrongLength,
                spot: 1,
            });
        }
        Ok(Lengths {
            places: p,
            rows: p * h,
            shortfalls: a,
            entries: a * 4 * h,
        })
    }
}

// Puts a stage in the place of one that was taken out. A month is not let go by oversight, so no assignment does this.
fn put_back(stage: &mut Stage, next: Stage)
    requires { stage.old ≡ Stage.Idle }
    ensures { stage.new ≡ next }
{
    match replace(stage, next) {
        Stage::Idle => {}
        _ => unreachable(),
    }
}

impl<E: Reversible> Desk<E> {
    // No month, and memory that means nothing yet.
    pub(crate) fn new() -> Desk<E>
        ensures { result.stage ≡ Stage.Idle }
    {
        Desk {
            stage: Stage::Idle,
            lengths: Lengths {
                places: 0,
                rows: 0,
                shortfalls: 0,
                entries: 0,
            },
            places: [BLANK; PLACES],
            rows: [0; ROWS],
            shortfalls: [0; AGENTS],
            board: [E::empty(); ENTRIES],
        }
    }

    pub(crate) fn is_idle(&self) -> bool
        ensures { result ≡ is_idle self.now.stage }
    {
        matches!(&self.stage, Stage::Idle)
    }

    // Puts the month away for good, and answers how many places it had taken.
    pub(crate) fn discard(self) -> u16
        ensures { result ≡ taken_at self.stage }
    {
        let Desk {
            stage,
            lengths: _,
            places: _,
            rows: _,
            shortfalls: _,
            board: _,
        } = self;
        match stage {
            Stage::Idle => 0,
            Stage::Open(month) => month.discard(),
            Stage::Closed(month) => month.discard(),
        }
    }

    // Opens a month on the front of each memory.
    pub(crate) fn open(agents: u16, hours: u16, size: u16) -> Result<Desk<E>, Fault>
        ensures refused { refusal_of result ≡ opening_refusal agents hours size }
        ensures begun { IfOk result (λ desk. Fresh (meaning E.Joining E.Reversible.own) agents hours size (held_of E.Joining desk)) }
    {
        Sizes::new(agents, hours, size)?;
        let lengths = Lengths::of(agents, hours, size)?;
        let places = [BLANK; PLACES];
        let rows = [0; ROWS];
        let mut shortfalls = [0; AGENTS];
        let mut board = [E::empty(); ENTRIES];
        let month = Month::open(
            agents,
            hours,
            size,
            &places[..lengths.places],
            &rows[..lengths.rows],
            &mut shortfalls[..lengths.shortfalls],
            &mut board[..lengths.entries],
        )?;
        Ok(Desk {
            stage: Stage::Open(month),
            lengths,
            places,
            rows,
            shortfalls,
            board,
        })
    }

    // Closes the month if it is open.
    pub(crate) fn close(&mut self) -> Result<(), Fault>
        ensures { Shut self.old.stage self.old (refusal_of result) self.new }
    {
        match replace(&mut self.stage, Stage::Idle) {
            Stage::Open(month) => {
                put_back(&mut self.stage, Stage::Closed(month.close()));
                Ok(())
            }
            other => {
                put_back(&mut self.stage, other);
                Err(OUT_OF_TURN)
            }
        }
    }
}
