// The life of a contract.
ghost use Rattle.std.specs.Prelude.{◌≡◌, ◌<◌, IfSome};
ghost use Rattle.book.specs.States.{allowed, in_force, state_after, state_number};
ghost use Rattle.book.specs.Terms.{offered as just_offered};

use crate::contract::{Contract, Event, State, Terms};

impl State {
    // The state that an event leads to, or none where it does not fit.
    pub fn after(self, event: Event) -> Option<State>
        ensures next { result ≡ state_after self event }
        ensures onward { IfSome result (λ s. state_number self < state_number s) }
    {
        match (self, event) {
            (State::Offered, Event::Confirmation) => Some(State::InForce),
            (State::Offered | State::InForce, Event::Ending) => Some(State::Ended),
            (State::InForce, Event::Confirmation) | (State::Ended, _) => None,
        }
    }
}

impl Contract {
    // A contract just offered: none of its amount counts yet.
    pub fn offered(terms: Terms) -> Contract
        ensures { result ≡ just_offered terms }
    {
        Contract {
            terms,
            effective: 0,
            state: State::Offered,
        }
    }

    pub fn in_force(&self) -> bool
        ensures { result ≡ in_force self.now }
    {
        self.state == State::InForce
    }
}

impl Terms {
    // Whether an agent may bring an event about.
    pub fn allows(&self, event: Event, agent: u16) -> bool
        ensures { result ≡ allowed event self.now agent }
    {
        match event {
            Event::Confirmation => agent == self.buyer,
            Event::Ending => agent == self.seller || agent == self.buyer,
        }
    }
}
