// What every call on the book examines first: the lengths of the memories, that the book is sound, and the fields that calls share.
ghost use Rattle.std.specs.Prelude.{◌≡◌, ◌≤◌, length, take, IfOk, OnOk};
ghost use Rattle.scale.specs.Refusals.{refusal_of, unless};
ghost use Rattle.book.specs.Limits.{between};
ghost use Rattle.ledger.specs.Checks.{admitted};
ghost use Rattle.month.specs.Months.{lent, Admitted};
ghost use Rattle.month.specs.Settling.{Chosen, DecidedAt};

use super::Month;
use crate::lengths::check_lengths;
use crate::memories::Memories;
use book::contract::{Contract, Number};
use book::limit::limit;
use book::lookup::find;
use book::sound::examine;
use entry::joining::Joining;
use scale::fault::{Fault, Reason};

impl<P> Month<P> {
    // The contracts at the taken places.
    pub(super) fn contracts<'a>(&self, places: &'a [Contract]) -> &'a [Contract]
        requires { self.now.taken ≤ length places.now }
        ensures { result.now ≡ take self.now.taken places.now }
    {
        &places[..usize::from(self.taken)]
    }

    // Refuses memories of a wrong length and a book that is not sound.
    pub(super) fn admit<E: Joining>(&self, memories: Memories<'_, E>) -> Result<(), Fault>
        ensures refused { refusal_of result ≡ admitted (lent E.Joining self.now memories.entry) }
        ensures sound { OnOk result (Admitted (lent E.Joining self.now memories.entry)) }
    {
        check_lengths(&self.sizes, memories)?;
        examine(
            &self.sizes,
            self.contracts(memories.places),
            memories.rows,
            memories.shortfalls,
        )
    }

    // The contract of a number in an admitted book, with its index, from 0. What a call then checks decides at its place.
    pub(super) fn contract_of<E: Joining>(
        &self,
        memories: Memories<'_, E>,
        number: Number,
    ) -> Result<(usize, Contract), Fault>
        ensures decided { DecidedAt (lent E.Joining self.now memories.entry) number result }
        ensures chosen { IfOk result (λ p. Chosen (lent E.Joining self.now memories.entry) number (λ c. c) p.0 p.1) }
    {
        self.admit(memories)?;
        let contracts = self.contracts(memories.places);
        let place = find(contracts, number).ok_or(Fault {
            reason: Reason::NumberAbsent,
            spot: 0,
        })?;
        Ok((place - 1, contracts[place - 1]))
    }

    // Refuses an agent that the month does not have.
    pub(super) fn check_agent(&self, agent: u16) -> Result<(), Fault>
        ensures { refusal_of result ≡ unless (between 1 self.now.sizes.agents agent) 4 1 }
    {
        limit(
            u32::from(agent),
            1,
            u32::from(self.sizes.agents()),
            Reason::FieldOutside,
            1,
        )
    }

    // Refuses an hour that the month does not have. Calls have it as different fields.
    pub(super) fn check_hour(&self, hour: u16, field: usize) -> Result<(), Fault>
        ensures { refusal_of result ≡ unless (between 1 self.now.sizes.hours hour) 4 field }
    {
        limit(
            u32::from(hour),
            1,
            u32::from(self.sizes.hours()),
            Reason::FieldOutside,
            field,
        )
    }
}
