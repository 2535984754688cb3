// The quantity of a contract in force at an hour.
ghost use Rattle.std.specs.Prelude.{◌≡◌, ℕ, ◌<◌, true, length, IfOk, Some};
ghost use Rattle.scale.specs.Refusals.{refusal_of};
ghost use Rattle.scale.specs.Weights.{weight_at};
ghost use Rattle.book.specs.Lookup.{place_of};
ghost use Rattle.book.specs.States.{in_force};
ghost use Rattle.ledger.specs.Checks.{quantity_refusal};
ghost use Rattle.ledger.specs.Past.{ledger, line_at, quantities_in};
ghost use Rattle.ledger.specs.States.{contracts};
ghost use Rattle.ledger.specs.Turnovers.{OfEveryLife};
ghost use Rattle.month.specs.Months.{lent};
ghost use Rattle.month.specs.Questions.{quantity_at};
ghost use Rattle.month.specs.Settling.{Chosen};

use super::Month;
use crate::memories::Memories;
use book::contract::{Contract, Number};
use entry::joining::Joining;
use scale::fault::{Fault, Reason};

impl<P> Month<P> {
    // The checks of the question in their order: the index of the contract, from 0, and the contract, which is in force.
    fn choose_quantity<E: Joining>(
        &self,
        memories: Memories<'_, E>,
        number: Number,
        hour: u16,
    ) -> Result<(usize, Contract), Fault>
        ensures refused { refusal_of result ≡ quantity_refusal (lent E.Joining self.now memories.entry) number hour }
        ensures chosen { IfOk result (λ p. Chosen (lent E.Joining self.now memories.entry) number (λ c. c) p.0 p.1) }
        ensures standing { IfOk result (λ p. in_force p.1 ≡ true) }
    {
        let (index, contract) = self.contract_of(memories, number)?;
        self.check_hour(hour, 2)?;
        if !contract.in_force() {
            return Err(Fault {
                reason: Reason::StateUnfit,
                spot: index + 1,
            });
        }
        Ok((index, contract))
    }

    // The quantity of a contract in force at an hour: its effective amount shared over its row. In every life it is the
    // quantity that the ledger has for the number.
    pub fn quantity<E: Joining>(
        &self,
        memories: Memories<'_, E>,
        number: Number,
        hour: u16,
    ) -> Result<u32, Fault>
        ensures answer { refusal_of result ≡ quantity_refusal (lent E.Joining self.now memories.entry) number hour }
        ensures quantity { IfOk result (λ q. (place : ℕ) → place_of number (contracts (lent E.Joining self.now memories.entry)) ≡ Some place → q ≡ quantity_at (lent E.Joining self.now memories.entry) place hour) }
        ensures lived { IfOk result (λ q. OfEveryLife (lent E.Joining self.now memories.entry)
            (λ past. (i : ℕ) → i < length (ledger past).lines → (line_at (ledger past) i).fields.number ≡ number → q ≡ weight_at (quantities_in (ledger past) i) hour)) }
    {
        let (index, contract) = self.choose_quantity(memories, number, hour)?;
        let hours = usize::from(self.sizes.hours());
        let start = index * hours;
        scale::share::quantity(
            contract.effective,
            &memories.rows[start..start + hours],
            usize::from(hour),
        )
    }
}
