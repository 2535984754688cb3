// Cases drawn from the generator, and how a group of them is told.
use anyhow::bail;
use model::answers::Refusal;
use model::random::Random;
use std::alloc::{AllocError, Global};

// How many cases a group has.
pub const CASES: u32 = 4000;

// How a case came out: the system and this calculation agree on what is made, or that nothing is, or differ.
#[derive(Clone, Copy, PartialEq, Eq, Debug)]
pub enum Outcome {
    Agrees,
    Refused,
    Differs,
}

impl Outcome {
    // Of a case that is told this; `right` says whether what an accepted one made is what it should, `unmoved` whether all is as before.
    pub fn of(
        told: Result<(), Refusal>,
        wanted: Result<(), Refusal>,
        right: bool,
        unmoved: bool,
    ) -> Outcome {
        match told {
            _ if told != wanted => Outcome::Differs,
            Ok(()) if right => Outcome::Agrees,
            Err(_) if unmoved => Outcome::Refused,
            _ => Outcome::Differs,
        }
    }
}

// Says which case disagrees, and ends with an error.
pub fn disagrees<T>(rt: &HostRuntime, group: &str, case: u32) -> anyhow::Result<T> {
    println!(rt; "{group}: case {case} disagrees")?;
    bail!("a case disagrees")
}

// Compares the cases of a group, each as the closure draws it, and answers how many of them are refusals.
pub fn compare_cases<F: FnMut(&mut Random) -> Result<Outcome, AllocError>>(
    rt: &HostRuntime,
    group: &str,
    seed: u64,
    mut compare: F,
) -> anyhow::Result<u32>
    requires { F.IsAlwaysCallable compare }
{
    let mut random = Random::new(seed);
    let mut refusals: u32 = 0;
    for case in 0..CASES {
        match compare(&mut random)? {
            Outcome::Agrees => {}
            Outcome::Refused => refusals = refusals.wrapping_add(1),
            Outcome::Differs => return disagrees(rt, group, case),
        }
    }
    Ok(refusals)
}

// Says how many cases of a group agreed, of which so many were refusals.
pub fn agreed(rt: &HostRuntime, group: &str, refusals: u32) -> anyhow::Result<()> {
    println!(rt; "{group}: {CASES} cases agree, {refusals} of them refusals")?;
    Ok(())
}

// Weights of every size, some of them 0, mostly few enough to be shared over.
pub fn draw_weights(
    heap: Global,
    random: &mut Random,
    count: usize,
) -> Result<Vec<u32>, AllocError> {
    let most = match random.between(0, 3) {
        0 => 1,
        1 => 9,
        2 => 1_000_000,
        _ => 400_000_000,
    };
    (0..count)
        .map(|_| match random.between(0, 3) {
            0 => 0,
            _ => random.between(0, most),
        })
        .collect(heap)
}

// An amount of every size, now and then above what may be shared.
pub fn draw_amount(random: &mut Random) -> u32 {
    match random.between(0, 8) {
        0 | 1 | 2 => random.between(0, 20),
        3 | 4 => random.between(0, 1_000_000),
        5 | 6 | 7 => random.between(0, 2_000_000_000),
        _ => random.between(1_999_999_999, 2_000_000_003),
    }
}

// The same numbers in 64 bits.
pub fn widened(heap: Global, numbers: &[u32]) -> Result<Vec<u64>, AllocError> {
    numbers.iter().copied().map(u64::from).collect(heap)
}
