// Shares over generated weights, rows over clipped ones, and quantities over rows.
use crate::drawn::{CASES, Outcome, agreed, compare_cases, draw_amount, draw_weights, widened};
use model::answers::{Refusal, refused, weighed};
use model::ledger::clipped;
use model::random::Random;
use model::sharing::{part_between, parts, sum};
use scale::row::RowScale;
use scale::share::{fill_row, quantity, share};
use std::alloc::{AllocError, Global};
use trial::compare::same_numbers;
use trial::making::refusal_of;

const MOST: u32 = 2_000_000_000;

// What a sharing must be answered.
fn answer_of(
    amount: u32,
    places: usize,
    weights: &[u32],
    first: u16,
    last: u16,
) -> Result<(), Refusal> {
    if amount > MOST {
        return refused(4, 1);
    }
    if places != weights.len() {
        return refused(11, 0);
    }
    weighed(weights, first, last)
}

// Whether memory still holds only the number that it was filled with.
fn untouched(numbers: &[u32]) -> bool {
    numbers.iter().all(|number| *number == 7)
}

// Adds a part and its share to the sums of a run, and answers these.
fn add_part(sums: &mut (u128, u128), (part, share): (&u64, &u64)) -> Option<(u128, u128)> {
    let (weight, total) = *sums;
    *sums = (
        weight.wrapping_add(u128::from(*part)),
        total.wrapping_add(u128::from(*share)),
    );
    Some(*sums)
}

// Whether each run of parts lies under `steps` from its exact share, compared after multiplying by the whole weight.
fn runs_lie_near(amount: u64, weights: &[u64], shares: &[u64], steps: u128) -> bool {
    let whole = u128::from(sum(weights));
    let lies_near = |(weight, total): (u128, u128)| {
        let exact = u128::from(amount).wrapping_mul(weight);
        total.wrapping_mul(whole).abs_diff(exact) < whole.wrapping_mul(steps)
    };
    let all_near_from = |from: usize| {
        let parts = weights.iter().zip(shares).skip(from);
        parts.scan((0u128, 0u128), add_part).all(lies_near)
    };
    weights.len() == shares.len() && (0..weights.len()).all(all_near_from)
}

// Whether the two own ways of sharing agree.
fn ways_agree(amount: u64, weights: &[u64], shares: &[u64]) -> bool {
    let whole = sum(weights);
    weights
        .iter()
        .scan(0u64, |before, weight| {
            let from = *before;
            *before = from.wrapping_add(*weight);
            Some(part_between(amount, whole, from, *before))
        })
        .eq(shares.iter().copied())
}

fn share_case(heap: Global, random: &mut Random) -> Result<Outcome, AllocError> {
    let count = usize::from(random.among(1, 20));
    let weights = draw_weights(heap, random, count)?;
    let amount = draw_amount(random);
    let places = if random.between(0, 30) == 0 {
        count.wrapping_add(1)
    } else {
        count
    };
    let mut out = vec![in heap; 7u32; places]?;
    let told = share(
        amount,
        &RowScale::new(weights.as_slice()),
        out.as_mut_slice(),
    )
    .map_err(refusal_of);
    let wide = widened(heap, weights.as_slice())?;
    let shares = parts(heap, u64::from(amount), wide.as_slice())?;
    let right = same_numbers(out.as_slice(), shares.as_slice())
        && runs_lie_near(u64::from(amount), wide.as_slice(), shares.as_slice(), 1)
        && ways_agree(u64::from(amount), wide.as_slice(), shares.as_slice());
    let wanted = answer_of(amount, places, weights.as_slice(), 1, 20);
    Ok(Outcome::of(told, wanted, right, untouched(out.as_slice())))
}

pub fn compare_shares(rt: &HostRuntime) -> anyhow::Result<()> {
    let refusals = compare_cases(rt, "shares", 11, |random| share_case(rt.alloc(), random))?;
    agreed(rt, "shares", refusals)
}

fn row_case(heap: Global, random: &mut Random) -> Result<Outcome, AllocError> {
    let count = random.among(1, 24);
    let weights = draw_weights(heap, random, usize::from(count))?;
    let first = random.among(1, count);
    let last = random.among(first, count);
    let amount = draw_amount(random);
    let mut out = vec![in heap; 7u32; usize::from(count)]?;
    let told = fill_row(
        amount,
        &RowScale::new(weights.as_slice()),
        usize::from(first),
        usize::from(last),
        out.as_mut_slice(),
    )
    .map_err(refusal_of);
    let kept = clipped(heap, weights.as_slice(), first, last)?;
    let shares = parts(heap, u64::from(amount), kept.as_slice())?;
    let right = same_numbers(out.as_slice(), shares.as_slice());
    let wanted = answer_of(amount, usize::from(count), weights.as_slice(), first, last);
    Ok(Outcome::of(told, wanted, right, untouched(out.as_slice())))
}

pub fn compare_rows(rt: &HostRuntime) -> anyhow::Result<()> {
    let refusals = compare_cases(rt, "rows", 12, |random| row_case(rt.alloc(), random))?;
    agreed(rt, "rows", refusals)
}

// Whether the quantity of each hour is the wanted one, and 0 outside the row.
fn quantities_agree(effective: u32, row: &[u32], wanted: &[u64]) -> bool {
    (0..=row.len().wrapping_add(1)).all(|hour| {
        let want = wanted.get(hour.wrapping_sub(1)).copied().unwrap_or(0);
        quantity(effective, row, hour).is_ok_and(|found| u64::from(found) == want)
    })
}

// An amount over weights gives its row, and what is left of the amount over the row its quantities.
fn quantity_case(heap: Global, random: &mut Random) -> Result<Outcome, AllocError> {
    let count = random.among(1, 24);
    let mut weights = draw_weights(heap, random, usize::from(count))?;
    weights.push(1)?;
    let amount = random.between(1, 1_000_000_000);
    let effective = if random.between(0, 5) == 0 {
        amount
    } else {
        random.between(0, amount)
    };
    let mut row = vec![in heap; 7u32; weights.len()]?;
    let told = share(
        amount,
        &RowScale::new(weights.as_slice()),
        row.as_mut_slice(),
    )
    .map_err(refusal_of);
    let wide = widened(heap, weights.as_slice())?;
    let from = widened(heap, row.as_slice())?;
    let wanted = parts(heap, u64::from(effective), from.as_slice())?;
    let near = runs_lie_near(u64::from(effective), wide.as_slice(), wanted.as_slice(), 2);
    let whole = effective != amount || same_numbers(row.as_slice(), wanted.as_slice());
    let right = near && whole && quantities_agree(effective, row.as_slice(), wanted.as_slice());
    let heavy = weighed(weights.as_slice(), 1, u16::MAX);
    Ok(Outcome::of(told, heavy, right, untouched(row.as_slice())))
}

pub fn compare_quantities(rt: &HostRuntime) -> anyhow::Result<()> {
    let _ = compare_cases(rt, "quantities", 13, |random| {
        quantity_case(rt.alloc(), random)
    })?;
    println!(rt; "quantities: {CASES} contracts agree at every hour")?;
    Ok(())
}
