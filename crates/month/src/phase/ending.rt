// Ending a contract.
ghost use Rattle.std.specs.Prelude.{◌≡◌, IfOk};
ghost use Rattle.scale.specs.Refusals.{refusal_of};
ghost use Rattle.entry.specs.Kinds.{meaning};
ghost use Rattle.ledger.specs.Calls.{ended as as_ended, Ending};
ghost use Rattle.ledger.specs.Checks.{end_refusal};
ghost use Rattle.ledger.specs.Lives.{LeadsOn};
ghost use Rattle.ledger.specs.Past.{ending};
ghost use Rattle.month.specs.Months.{lent, state_of};
ghost use Rattle.month.specs.Settling.{Chosen};

use super::{Month, Open};
use crate::memories::Memories;
use crate::phase::events::next_state;
use book::contract::{Contract, Event, Number};
use entry::joining::Joining;
use entry::reversible::Reversible;
use scale::fault::Fault;

impl Month<Open> {
    // The checks of an ending in their order: the index of the contract, from 0, and the contract as it ends.
    fn choose_ending<E: Joining>(
        &self,
        memories: Memories<'_, E>,
        number: Number,
        agent: u16,
    ) -> Result<(usize, Contract), Fault>
        ensures refused { refusal_of result ≡ end_refusal (lent E.Joining self.now memories.entry) number agent }
        ensures chosen { IfOk result (λ p. Chosen (lent E.Joining self.now memories.entry) number as_ended p.0 p.1) }
    {
        let (index, contract) = self.contract_of(memories, number)?;
        let state = next_state(&contract, Event::Ending, agent, index + 1)?;
        let ended = Contract {
            effective: 0,
            state,
            ..contract
        };
        Ok((index, ended))
    }

    // An ending that passed: the contract stands ended, and its seller is resettled. Apart from `end` as a confirmation is
    // from `confirm`, so that each way out need not show the law on lives.
    fn finish<E: Reversible>(
        &self,
        places: &mut [Contract],
        rows: &[u32],
        shortfalls: &[u64],
        board: &mut [E],
        number: Number,
        agent: u16,
    ) -> Result<(), Fault>
        ensures { Ending (meaning E.Joining E.Reversible.own) number agent (refusal_of result)
            (state_of E.Joining self.now places.old rows.now shortfalls.now board.old)
            (state_of E.Joining self.now places.new rows.now shortfalls.now board.new) }
    {
        let memories = Memories {
            places,
            rows,
            shortfalls,
            board,
        };
        let (index, ended) = self.choose_ending(memories, number, agent)?;
        let seller = ended.terms.seller;
        self.resettle(
            places,
            Some((index, ended)),
            seller,
            shortfalls,
            rows,
            board,
        );
        Ok(())
    }

    // Ends a contract, by its seller or its buyer. Nothing of its amount stays effective, and the cuts of its seller's other
    // contracts are set anew.
    pub fn end<E: Reversible>(
        &self,
        places: &mut [Contract],
        rows: &[u32],
        shortfalls: &[u64],
        board: &mut [E],
        number: Number,
        agent: u16,
    ) -> Result<(), Fault>
        ensures step { Ending (meaning E.Joining E.Reversible.own) number agent (refusal_of result)
            (state_of E.Joining self.now places.old rows.now shortfalls.now board.old)
            (state_of E.Joining self.now places.new rows.now shortfalls.now board.new) }
        ensures life { LeadsOn (meaning E.Joining E.Reversible.own) (ending number agent) (refusal_of result)
            (state_of E.Joining self.now places.old rows.now shortfalls.now board.old)
            (state_of E.Joining self.now places.new rows.now shortfalls.now board.new) }
    {
        self.finish(places, rows, shortfalls, board, number, agent)
    }
}
