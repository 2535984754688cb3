// Who may bring an event about, and whether it fits the contract's state.
ghost use Rattle.std.specs.Prelude.{◌≡◌, [], ◌∷◌, is_some, IfOk, Some};
ghost use Rattle.scale.specs.Refusals.{first_of, refusal_of, unless};
ghost use Rattle.book.specs.States.{allowed, state_after};

use book::contract::{Contract, Event, State};
use scale::fault::{Fault, Reason};

// The state that an event leads the contract at a place to, if the agent is allowed the event and the present state fits it.
pub(super) fn next_state(
    contract: &Contract,
    event: Event,
    agent: u16,
    place: usize,
) -> Result<State, Fault>
    ensures refused { refusal_of result ≡ first_of (unless (allowed event contract.now.terms agent) 9 place ∷ unless (is_some (state_after contract.now.state event)) 10 place ∷ []) }
    ensures next { IfOk result (λ n. state_after contract.now.state event ≡ Some n) }
{
    if !contract.terms.allows(event, agent) {
        return Err(Fault {
            reason: Reason::PartyNotAllowed,
            spot: place,
        });
    }
    contract.state.after(event).ok_or(Fault {
        reason: Reason::StateUnfit,
        spot: place,
    })
}
