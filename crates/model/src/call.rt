// What is called, in plain numbers. No type of the system may be shared, so classes, sources and refusals have here the numbers of the rules.
// Class and source are numbers because a call may name any number, and an own enum could not hold those that no class has.

// What an offer names.
#[derive(Clone, Copy, PartialEq, Eq, Debug)]
pub struct Named {
    pub number: u16,
    pub seller: u16,
    pub buyer: u16,
    pub submarket: u16,
    pub class: u16,
    pub source: u16,
    pub first: u16,
    pub last: u16,
    pub amount: u32,
}

// A call that changes a month. A scale is the list of its weights.
#[derive(Drop)]
pub enum Call {
    Offer(Named),
    Confirm {
        number: u16,
        agent: u16,
        weights: Vec<u32>,
    },
    End {
        number: u16,
        agent: u16,
    },
    Tell {
        agent: u16,
        kwh: u64,
    },
}

impl Call {
    // What it offers, if it is an offer.
    pub fn offered(&self) -> Option<&Named> {
        match self {
            Call::Offer(named) => Some(named),
            _ => None,
        }
    }
}
