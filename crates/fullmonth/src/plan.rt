// What the full month stages: 64 agents, 744 hours, 256 places, by formulas that bench/plain.rs repeats.
use model::call::{Call, Named};
use std::alloc::{AllocError, Global};
use trial::making::{Shape, meant};

pub const AGENTS: u16 = 64;

pub const HOURS: u16 = 744;

pub const PLACES: u16 = 256;

// A remainder in 16 bits.
fn rest(number: u32, by: u16) -> u16 {
    number
        .checked_rem(u32::from(by))
        .and_then(|rest| u16::try_from(rest).ok())
        .unwrap_or(0)
}

// The offer at a place, counted from 0. Every seller has four contracts, of at most 1,924,000,012 kWh in all.
fn offer_at(place: u16) -> Named {
    let p = u32::from(place);
    let seller = rest(p, 64);
    let round = p / 64;
    let apart = rest(p.wrapping_mul(29).wrapping_add(round.wrapping_mul(7)), 63);
    let mixed = round.wrapping_mul(1 + p % 3).wrapping_add(p % 5);
    Named {
        number: place.wrapping_mul(3).wrapping_add(1000),
        seller: seller.wrapping_add(1),
        buyer: rest(u32::from(seller.wrapping_add(apart)).wrapping_add(1), 64).wrapping_add(1),
        submarket: rest(round.wrapping_add(p), 4).wrapping_add(1),
        class: rest(mixed, 4).wrapping_add(1),
        source: rest(p / 2, 2),
        first: rest(p.wrapping_mul(13), 200).wrapping_add(1),
        last: HOURS.wrapping_sub(rest(p.wrapping_mul(17), 200)),
        amount: p.wrapping_mul(7_654_321) % 480_000_000 + 1_000_003,
    }
}

// The scale that a place is confirmed on.
fn shape_at(place: u16) -> Shape {
    match place % 3 {
        0 => Shape::Even,
        1 => Shape::Row,
        _ => Shape::Clip {
            first: 100,
            last: 600,
        },
    }
}

// The weights that a place's scale is made of.
fn raw_at(heap: Global, place: u16) -> Result<Vec<u32>, AllocError> {
    (1..=u32::from(HOURS))
        .map(|hour| {
            let bent = hour.wrapping_mul(hour).wrapping_mul(31);
            bent.wrapping_add(u32::from(place).wrapping_mul(7)) % 1000 + 1
        })
        .collect(heap)
}

// Whether a place is ended at last: one contract of each seller.
pub fn ends_at(place: u16) -> bool {
    place.wrapping_add(place / 64) % 4 == 1
}

// What the shortfalls told of agents are made of, in the first round and the second.
pub const FIRST: u64 = 31_415_926;

pub const SECOND: u64 = 27_182_818;

// The shortfall told of an agent, in a round.
fn shortfall_of(agent: u16, round: u64) -> u64 {
    u64::from(agent).wrapping_mul(round) % 2_000_000_001
}

// A call as it is made: a confirmation on a scale of this shape and these weights.
#[derive(Drop)]
pub struct Made {
    pub call: Call,
    pub shape: Shape,
    pub raw: Vec<u32>,
}

impl Made {
    // A call that needs no scale.
    fn plain(heap: Global, call: Call) -> Made {
        Made {
            call,
            shape: Shape::Even,
            raw: Vec::new(heap),
        }
    }

    pub fn offer(heap: Global, place: u16) -> Made {
        Made::plain(heap, Call::Offer(offer_at(place)))
    }

    pub fn confirmation(heap: Global, place: u16) -> Result<Made, AllocError> {
        let offer = offer_at(place);
        let shape = shape_at(place);
        let raw = raw_at(heap, place)?;
        let call = Call::Confirm {
            number: offer.number,
            agent: offer.buyer,
            weights: meant(heap, shape, raw.as_slice())?,
        };
        Ok(Made { call, shape, raw })
    }

    pub fn telling(heap: Global, agent: u16, round: u64) -> Made {
        let kwh = shortfall_of(agent, round);
        Made::plain(heap, Call::Tell { agent, kwh })
    }

    // An ending, now by the seller, now by the buyer.
    pub fn ending(heap: Global, place: u16) -> Made {
        let offer = offer_at(place);
        let agent = if place % 2 == 0 {
            offer.seller
        } else {
            offer.buyer
        };
        let number = offer.number;
        Made::plain(heap, Call::End { number, agent })
    }
}
