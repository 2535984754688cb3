// Whole small months of generated calls, accepted and refused, held against the account after each call.
use crate::drawn::draw_weights;
use anyhow::bail;
use entry::joining::Joining;
use entry::reversible::Reversible;
use model::answers::Refusal;
use model::call::{Call, Named};
use model::random::Random;
use month::phase::{Closed, Month, Open};
use std::alloc::{AllocError, Global};
use std::collections::BTreeMap;
use trial::kind::Kind;
use trial::making::{Shape, meant};
use trial::staged::Staged;

const MONTHS: u32 = 250;

const CALLS: u32 = 40;

// How often each answer came.
#[derive(Drop)]
struct Tally {
    accepted: u32,
    refused: BTreeMap<u16, u32>,
}

impl Tally {
    fn note(&mut self, told: Result<(), Refusal>) -> Result<(), AllocError> {
        match told {
            Ok(()) => self.accepted = self.accepted.wrapping_add(1),
            Err(refusal) => {
                let count = self.refused.entry(refusal.number)?.or_insert(0);
                *count = count.wrapping_add(1);
            }
        }
        Ok(())
    }

    fn show(&self, rt: &HostRuntime, name: &str) -> anyhow::Result<()> {
        let accepted = self.accepted;
        println!(rt; "{name}: {MONTHS} months agree after each call, {accepted} calls accepted")?;
        for (number, count) in self.refused.iter() {
            println!(rt; "  refused {number}: {count}")?;
        }
        Ok(())
    }
}

// The sizes of a month, and whether its amounts are big.
#[derive(Clone, Copy)]
struct Frame {
    agents: u16,
    hours: u16,
    big: bool,
}

// A number from 1 to `high`, or rarely one that is just outside.
fn mostly(random: &mut Random, high: u16) -> u16 {
    match random.between(0, 99) {
        0 => 0,
        1 => high.wrapping_add(1),
        _ => random.among(1, high),
    }
}

fn draw_quantity(random: &mut Random, big: bool) -> u32 {
    match random.between(0, 19) {
        0 => random.between(999_999_999, 1_000_000_001),
        1 => random.between(0, 1),
        _ => {
            if big {
                random.between(500_000_000, 1_000_000_000)
            } else {
                random.between(1, 200)
            }
        }
    }
}

fn draw_offer(random: &mut Random, frame: Frame) -> Named {
    let Frame { agents, hours, big } = frame;
    let first = mostly(random, hours);
    let seller = mostly(random, agents);
    let next = if seller >= agents {
        1
    } else {
        seller.wrapping_add(1)
    };
    Named {
        number: random.among(1, 12),
        seller,
        buyer: if random.between(0, 3) == 0 {
            mostly(random, agents)
        } else {
            next
        },
        submarket: mostly(random, 4),
        class: mostly(random, 4),
        source: mostly(random, 2).wrapping_sub(1) % 3,
        first,
        last: if random.between(0, 15) == 0 {
            mostly(random, hours)
        } else {
            hours
        },
        amount: draw_quantity(random, big),
    }
}

// Raw weights for a month's hours, now and then of a wrong length, weightless or too heavy.
fn draw_raw(heap: Global, random: &mut Random, hours: u16) -> Result<Vec<u32>, AllocError> {
    let count = usize::from(hours);
    match random.between(0, 25) {
        0 => draw_weights(heap, random, count.wrapping_add(1)),
        1 => vec![in heap; 0u32; count],
        2 => vec![in heap; 1_500_000_000u32; count],
        _ => draw_weights(heap, random, count),
    }
}

fn draw_shape(random: &mut Random, hours: u16) -> Shape {
    match random.between(0, 3) {
        0 | 1 => Shape::Even,
        2 => Shape::Row,
        _ => Shape::Clip {
            first: random.among(0, hours),
            last: random.among(1, hours),
        },
    }
}

// A number and an agent to confirm or end by: mostly of a contract that is there, and its buyer.
fn draw_party(random: &mut Random, offered: &[Named], agents: u16) -> (u16, u16) {
    let count = u32::try_from(offered.len()).unwrap_or(0);
    let pick = usize::try_from(random.between(0, count)).unwrap_or(0);
    match offered.get(pick) {
        Some(named) => {
            let stranger = random.between(0, 7) == 0;
            let agent = if stranger {
                random.among(0, agents)
            } else {
                named.buyer
            };
            (named.number, agent)
        }
        None => (random.among(0, 12), random.among(1, agents)),
    }
}

fn draw_shortfall(random: &mut Random, big: bool) -> u64 {
    match random.between(0, 9) {
        0 => 2_000_000_000,
        1 => 2_000_000_001,
        2 => 0,
        _ => u64::from(random.between(0, if big { 1_999_999_999 } else { 400 })),
    }
}

fn draw_call(random: &mut Random, frame: Frame, offered: &[Named], weights: Vec<u32>) -> Call {
    match random.between(0, 9) {
        0 | 1 | 2 => Call::Offer(draw_offer(random, frame)),
        3 | 4 | 5 => {
            let (number, agent) = draw_party(random, offered, frame.agents);
            Call::Confirm {
                number,
                agent,
                weights,
            }
        }
        6 => {
            let (number, agent) = draw_party(random, offered, frame.agents);
            Call::End { number, agent }
        }
        _ => Call::Tell {
            agent: mostly(random, frame.agents),
            kwh: draw_shortfall(random, frame.big),
        },
    }
}

// Draws the calls of a month, makes each, and compares everything after it.
fn live<E: Kind + Drop>(
    heap: Global,
    staged: &mut Staged<E>,
    month: &mut Month<Open>,
    random: &mut Random,
    tally: &mut Tally,
) -> anyhow::Result<()> {
    let frame = Frame {
        agents: staged.account.agents,
        hours: staged.account.hours,
        big: random.between(0, 2) == 0,
    };
    for _ in 0..CALLS {
        let shape = draw_shape(random, frame.hours);
        let raw = draw_raw(heap, random, frame.hours)?;
        let weights = meant(heap, shape, raw.as_slice())?;
        let offered = staged.account.offered(heap)?;
        let call = draw_call(random, frame, offered.as_slice(), weights);
        let answer = staged.make(month, &call, shape, raw.as_slice());
        tally.note(staged.note(call, answer)?)?;
        staged.compare(heap, month)?;
    }
    staged.compare_quantities(heap, month)
}

// Compares every turnover and certificate line of the closed month.
fn certify<E: Kind + Drop>(
    heap: Global,
    staged: &Staged<E>,
    month: &Month<Closed>,
) -> anyhow::Result<()> {
    let lines = staged.account.lines(heap)?;
    for agent in 1..=staged.account.agents {
        let turnover = staged.compare_turnover(month, lines.as_slice(), agent)?;
        staged.compare_line(heap, month, agent, turnover)?;
    }
    staged.compare(heap, month)
}

fn one_month<E: Kind + Drop>(
    heap: Global,
    random: &mut Random,
    tally: &mut Tally,
) -> anyhow::Result<()> {
    let agents = random.among(2, 4);
    let hours = random.among(1, 7);
    let places = random.among(1, 6);
    let mut staged: Staged<E> = Staged::new(heap, agents, hours, places)?;
    let Ok(mut month) = staged.open() else {
        bail!("the month is not opened");
    };
    let lived = live(heap, &mut staged, &mut month, random, tally);
    let closed = month.close();
    let certified = certify(heap, &staged, &closed);
    closed.discard();
    lived?;
    certified
}

pub fn compare_months<E: Kind + Drop>(
    rt: &HostRuntime,
    name: &str,
    seed: u64,
) -> anyhow::Result<()> {
    let mut random = Random::new(seed);
    let mut tally = Tally {
        accepted: 0,
        refused: BTreeMap::new(rt.alloc()),
    };
    for case in 0..MONTHS {
        if let Err(error) = one_month::<E>(rt.alloc(), &mut random, &mut tally) {
            println!(rt; "{name}: month {case} disagrees")?;
            return Err(error);
        }
    }
    tally.show(rt, name)
}
