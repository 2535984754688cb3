// Confirming a contract.
ghost use Rattle.std.specs.Prelude.{◌≡◌, ◌+◌, ◌*◌, ◌≤◌, length, IfOk, None};
ghost use Rattle.scale.specs.Refusals.{refusal_of};
ghost use Rattle.scale.specs.Shares.{shares_of};
ghost use Rattle.scale.specs.Totals.{limit as most_shared};
ghost use Rattle.scale.specs.Weights.{clipped};
ghost use Rattle.entry.specs.Kinds.{meaning};
ghost use Rattle.book.specs.Supply.{supply_check};
ghost use Rattle.ledger.specs.Calls.{enforced, put_row, rounding, Confirming};
ghost use Rattle.ledger.specs.Checks.{confirm_refusal};
ghost use Rattle.ledger.specs.Lives.{LeadsOn};
ghost use Rattle.ledger.specs.Past.{confirming as confirmed};
ghost use Rattle.month.specs.Months.{lent, state_of};
ghost use Rattle.month.specs.Settling.{Chosen, Supplied};

use super::{Month, Open};
use crate::memories::Memories;
use crate::phase::events::next_state;
use book::contract::{Contract, Event, Number, Terms};
use book::room::has_room;
use entry::joining::Joining;
use entry::reversible::Reversible;
use scale::fault::{Fault, Reason};
use scale::share::fill_row;
use scale::weights::Scale;

// Writes the row of a contract at its place, which counts from 0: the amount over the scale, clipped to the contract's hours.
// What passed the check of its supply is not refused here.
fn write_row<S: Scale>(rows: &mut [u32], index: usize, hours: usize, terms: &Terms, scale: &S)
    requires room { index * hours + hours ≤ length rows.old }
    requires supply { supply_check hours terms.now (S.Scale.weights scale.now) ≡ None }
    requires amount { terms.now.amount ≤ most_shared }
    ensures { rows.new ≡ put_row hours index (shares_of rounding terms.now.amount (clipped terms.now.first terms.now.last (S.Scale.weights scale.now))) rows.old }
{
    let start = index * hours;
    fill_row(
        terms.amount,
        scale,
        usize::from(terms.first),
        usize::from(terms.last),
        &mut rows[start..start + hours],
    )
    .unwrap();
}

impl Month<Open> {
    // The checks of a confirmation in their order: the index of the contract, from 0, and the contract as it enters into force.
    fn choose_confirmation<E: Joining, S: Scale>(
        &self,
        memories: Memories<'_, E>,
        number: Number,
        agent: u16,
        scale: &S,
    ) -> Result<(usize, Contract), Fault>
        ensures refused { refusal_of result ≡ confirm_refusal (lent E.Joining self.now memories.entry) number agent (S.Scale.weights scale.now) }
        ensures chosen { IfOk result (λ p. Chosen (lent E.Joining self.now memories.entry) number enforced p.0 p.1) }
        ensures supplied { IfOk result (λ p. Supplied (lent E.Joining self.now memories.entry) (S.Scale.weights scale.now) p.0) }
    {
        let (index, contract) = self.contract_of(memories, number)?;
        let place = index + 1;
        let state = next_state(&contract, Event::Confirmation, agent, place)?;
        contract
            .terms
            .weigh(usize::from(self.sizes.hours()), scale)?;
        if !has_room(
            self.contracts(memories.places),
            contract.terms.seller,
            contract.terms.amount,
        ) {
            return Err(Fault {
                reason: Reason::SellerOverLimit,
                spot: place,
            });
        }
        let entering = Contract { state, ..contract };
        Ok((index, entering))
    }

    // A confirmation that passed: the row is written, the contract stands in force, and its seller is resettled. It is apart from
    // `confirm`, which adds the law on lives from this step alone: in one function each way out would have to show it again.
    fn enforce<E: Reversible, S: Scale>(
        &self,
        places: &mut [Contract],
        rows: &mut [u32],
        shortfalls: &[u64],
        board: &mut [E],
        number: Number,
        agent: u16,
        scale: &S,
    ) -> Result<(), Fault>
        ensures { Confirming (meaning E.Joining E.Reversible.own) number agent (S.Scale.weights scale.now) (refusal_of result)
            (state_of E.Joining self.now places.old rows.old shortfalls.now board.old)
            (state_of E.Joining self.now places.new rows.new shortfalls.now board.new) }
    {
        let memories = Memories {
            places,
            rows,
            shortfalls,
            board,
        };
        let (index, contract) = self.choose_confirmation(memories, number, agent, scale)?;
        write_row(
            rows,
            index,
            usize::from(self.sizes.hours()),
            &contract.terms,
            scale,
        );
        let seller = contract.terms.seller;
        self.resettle(
            places,
            Some((index, contract)),
            seller,
            shortfalls,
            rows,
            board,
        );
        Ok(())
    }

    // Confirms an offered contract, by its buyer, on any scale. It enters into force with its row; its seller's cuts are set anew.
    // A repeat is refused, and moves nothing.
    pub fn confirm<E: Reversible, S: Scale>(
        &self,
        places: &mut [Contract],
        rows: &mut [u32],
        shortfalls: &[u64],
        board: &mut [E],
        number: Number,
        agent: u16,
        scale: &S,
    ) -> Result<(), Fault>
        ensures step { Confirming (meaning E.Joining E.Reversible.own) number agent (S.Scale.weights scale.now) (refusal_of result)
            (state_of E.Joining self.now places.old rows.old shortfalls.now board.old)
            (state_of E.Joining self.now places.new rows.new shortfalls.now board.new) }
        ensures life { LeadsOn (meaning E.Joining E.Reversible.own) (confirmed number agent (S.Scale.weights scale.now)) (refusal_of result)
            (state_of E.Joining self.now places.old rows.old shortfalls.now board.old)
            (state_of E.Joining self.now places.new rows.new shortfalls.now board.new) }
    {
        self.enforce(places, rows, shortfalls, board, number, agent, scale)
    }
}
