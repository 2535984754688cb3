// Questions that open and closed months answer. They alter nothing.
ghost use Rattle.std.specs.Prelude.{◌≡◌, ◌≤◌, IfOk};
ghost use Rattle.scale.specs.Refusals.{refusal_of};
ghost use Rattle.book.specs.Lookup.{place_of};
ghost use Rattle.ledger.specs.Checks.{admitted, turnover_refusal};
ghost use Rattle.ledger.specs.Past.{ledger};
ghost use Rattle.ledger.specs.States.{contracts};
ghost use Rattle.ledger.specs.Turnovers.{amount_sold, amount_bought, OfEveryLife};
ghost use Rattle.month.specs.Months.{lent};
ghost use Rattle.month.specs.Questions.{sold, bought};

use super::Month;
use crate::memories::Memories;
use crate::turnover::turnover_over;
use book::contract::Number;
use book::lookup::find;
use entry::joining::Joining;
use scale::fault::Fault;

impl<P> Month<P> {
    // The first place, from 1, of a contract number, or that it is absent.
    pub fn lookup<E: Joining>(
        &self,
        memories: Memories<'_, E>,
        number: Number,
    ) -> Result<Option<usize>, Fault>
        ensures answer { refusal_of result ≡ admitted (lent E.Joining self.now memories.entry) }
        ensures place { IfOk result (λ p. p ≡ place_of number (contracts (lent E.Joining self.now memories.entry))) }
    {
        self.admit(memories)?;
        Ok(find(self.contracts(memories.places), number))
    }

    // What an agent sold and bought: the effective amounts of its contracts in force. In every life they are the ledger's.
    pub fn turnover<E: Joining>(
        &self,
        memories: Memories<'_, E>,
        agent: u16,
    ) -> Result<(u64, u64), Fault>
        ensures answer { refusal_of result ≡ turnover_refusal (lent E.Joining self.now memories.entry) agent }
        ensures amounts { IfOk result (λ t. (t.0 ≡ sold agent (contracts (lent E.Joining self.now memories.entry)))
            × (t.1 ≡ bought agent (contracts (lent E.Joining self.now memories.entry)))) }
        ensures most { IfOk result (λ t. (t.0 ≤ 256000000000) × (t.1 ≤ 256000000000)) }
        ensures lived { IfOk result (λ t. OfEveryLife (lent E.Joining self.now memories.entry)
            (λ past. (t.0 ≡ amount_sold (ledger past) agent) × (t.1 ≡ amount_bought (ledger past) agent))) }
    {
        self.admit(memories)?;
        self.check_agent(agent)?;
        let turnover = turnover_over(self.contracts(memories.places), agent);
        Ok((turnover.sold, turnover.bought))
    }
}
