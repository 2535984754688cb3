// Cuts of generated books.
use crate::drawn::{Outcome, agreed, compare_cases};
use book::contract::{Class, Contract, State, Terms};
use book::cuts::recut;
use entry::source::Source;
use model::answers::refused;
use model::cutting::{Claim, claimed, cut};
use model::random::Random;
use std::alloc::{AllocError, Global};
use trial::making::refusal_of;

const MOST: u64 = 2_000_000_000;

fn draw_contract(random: &mut Random, number: u16, most: u32) -> Contract {
    let amount = random.between(1, most);
    let state = match random.between(0, 6) {
        0 => State::Offered,
        1 => State::Ended,
        _ => State::InForce,
    };
    Contract {
        terms: Terms {
            number,
            seller: random.among(1, 3),
            buyer: 4,
            submarket: 1,
            class: Class::try_from(random.among(1, 4)).unwrap_or(Class::Plant),
            source: Source::Conventional,
            first: 1,
            last: 1,
            amount,
        },
        effective: random.between(0, amount),
        state,
    }
}

// What a contract claims, if it is in force. No `From`: only a contract in force claims anything.
fn claim_of(contract: &Contract) -> Option<Claim> {
    contract.in_force().then(|| Claim {
        seller: contract.terms.seller,
        class: u16::from(contract.terms.class),
        amount: u64::from(contract.terms.amount),
    })
}

fn claims_of(heap: Global, contracts: &[Contract]) -> Result<Vec<Claim>, AllocError> {
    contracts.iter().filter_map(claim_of).collect(heap)
}

// What must be left: of each of the seller's contracts in force its amount less its cut, of every other what it had.
fn left(
    heap: Global,
    old: &[Contract],
    seller: u16,
    shortfall: u64,
) -> Result<Vec<u64>, AllocError> {
    let all = claims_of(heap, old)?;
    old.iter()
        .enumerate()
        .map(|(i, was)| match claim_of(was) {
            Some(claim) if claim.seller == seller => {
                let before = claims_of(heap, old.get(0..i).unwrap_or(old))?;
                let off = cut(all.as_slice(), before.as_slice(), claim, shortfall);
                Ok(claim.amount.saturating_sub(off))
            }
            _ => Ok(u64::from(was.effective)),
        })
        .collect::<Result<Vec<u64>, AllocError>>(heap)?
}

fn draw_shortfall(random: &mut Random, most: u32) -> u64 {
    match random.between(0, 5) {
        0 => 0,
        1 => 2_000_000_000,
        _ => u64::from(random.between(0, most)).wrapping_mul(u64::from(random.between(1, 6))),
    }
}

// One book, cut for one of its sellers.
fn cut_case(heap: Global, random: &mut Random) -> Result<Outcome, AllocError> {
    let most = match random.between(0, 3) {
        0 => 5,
        1 => 1000,
        2 => 100_000_000,
        _ => 1_000_000_000,
    };
    let count = random.among(0, 14);
    let old: Vec<Contract> = (0..count)
        .map(|number| draw_contract(random, number, most))
        .collect(heap)?;
    let mut new = old.clone()?;
    let seller = random.among(1, 3);
    let shortfall = draw_shortfall(random, most);
    let told = recut(new.as_mut_slice(), seller, shortfall).map_err(refusal_of);
    let claims = claims_of(heap, old.as_slice())?;
    let wanted = if claimed(claims.as_slice(), seller, 1, 4) > MOST {
        refused(15, 0)
    } else {
        Ok(())
    };
    let left = left(heap, old.as_slice(), seller, shortfall)?;
    let right = new
        .iter()
        .map(|contract| u64::from(contract.effective))
        .eq(left.iter().copied());
    Ok(Outcome::of(told, wanted, right, new == old))
}

pub fn compare_cuts(rt: &HostRuntime) -> anyhow::Result<()> {
    let refusals = compare_cases(rt, "cuts", 14, |random| cut_case(rt.alloc(), random))?;
    agreed(rt, "cuts", refusals)
}
