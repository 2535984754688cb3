// An account: the sizes of a month and the calls that it accepted, oldest first.
use crate::call::{Call, Named};
use std::alloc::{AllocError, AllocFailed, Global};

#[derive(Drop)]
pub struct Account {
    pub agents: u16,
    pub hours: u16,
    pub places: u16,
    pub(crate) calls: Vec<Call>,
}

impl Account {
    pub fn new(heap: Global, agents: u16, hours: u16, places: u16) -> Account {
        Account {
            agents,
            hours,
            places,
            calls: Vec::new(heap),
        }
    }

    // Writes an accepted call down.
    pub fn note(&mut self, call: Call) -> Result<(), AllocFailed<Call>> {
        self.calls.push(call)
    }

    // The terms offered, in the order of their places.
    pub fn offered(&self, heap: Global) -> Result<Vec<Named>, AllocError> {
        self.calls
            .iter()
            .filter_map(Call::offered)
            .copied()
            .collect(heap)
    }

    // The weights that a contract was confirmed on, if it was.
    pub fn confirmed(&self, contract: u16) -> Option<&Vec<u32>> {
        self.calls.iter().find_map(|call| match call {
            Call::Confirm {
                number,
                weights,
                ..
            } if *number == contract => Some(weights),
            _ => None,
        })
    }

    // Whether a contract was ended.
    pub fn ended(&self, contract: u16) -> bool {
        self.calls.iter().any(
            |call| matches!(call, Call::End { number, .. } if *number == contract),
        )
    }

    pub fn in_force(&self, contract: u16) -> bool {
        self.confirmed(contract).is_some() && !self.ended(contract)
    }

    // The shortfall last told of an agent.
    pub fn shortfall(&self, of: u16) -> u64 {
        self.calls
            .iter()
            .rev()
            .find_map(|call| match call {
                Call::Tell { agent, kwh } if *agent == of => Some(*kwh),
                _ => None,
            })
            .unwrap_or(0)
    }
}
