// Telling a shortfall.
ghost use Rattle.scale.specs.Refusals.{refusal_of};
ghost use Rattle.entry.specs.Kinds.{meaning};
ghost use Rattle.ledger.specs.Calls.{Telling};
ghost use Rattle.ledger.specs.Lives.{LeadsOn};
ghost use Rattle.ledger.specs.Past.{telling};
ghost use Rattle.month.specs.Months.{state_of};

use super::{Month, Open};
use crate::memories::Memories;
use book::contract::Contract;
use book::sound::moderate;
use entry::reversible::Reversible;
use scale::fault::{Fault, Reason};

impl Month<Open> {
    // The checks of a telling in their order; then the shortfall is noted, and the seller is resettled. Apart from `tell`, so that
    // each way out need not show the law on lives.
    fn note<E: Reversible>(
        &self,
        places: &mut [Contract],
        rows: &[u32],
        shortfalls: &mut [u64],
        board: &mut [E],
        agent: u16,
        kwh: u64,
    ) -> Result<(), Fault>
        ensures { Telling (meaning E.Joining E.Reversible.own) agent kwh (refusal_of result)
            (state_of E.Joining self.now places.old rows.now shortfalls.old board.old)
            (state_of E.Joining self.now places.new rows.now shortfalls.new board.new) }
    {
        let memories = Memories {
            places,
            rows,
            shortfalls,
            board,
        };
        self.admit(memories)?;
        self.check_agent(agent)?;
        if !moderate(kwh) {
            return Err(Fault {
                reason: Reason::ShortfallOverLimit,
                spot: 0,
            });
        }
        shortfalls[usize::from(agent) - 1] = kwh;
        self.resettle(places, None, agent, shortfalls, rows, board);
        Ok(())
    }

    // Tells an agent's shortfall, in place of an earlier one: its contracts in force are cut by it, class after class.
    pub fn tell<E: Reversible>(
        &self,
        places: &mut [Contract],
        rows: &[u32],
        shortfalls: &mut [u64],
        board: &mut [E],
        agent: u16,
        kwh: u64,
    ) -> Result<(), Fault>
        ensures step { Telling (meaning E.Joining E.Reversible.own) agent kwh (refusal_of result)
            (state_of E.Joining self.now places.old rows.now shortfalls.old board.old)
            (state_of E.Joining self.now places.new rows.now shortfalls.new board.new) }
        ensures life { LeadsOn (meaning E.Joining E.Reversible.own) (telling agent kwh) (refusal_of result)
            (state_of E.Joining self.now places.old rows.now shortfalls.old board.old)
            (state_of E.Joining self.now places.new rows.now shortfalls.new board.new) }
    {
        self.note(places, rows, shortfalls, board, agent, kwh)
    }
}
