// The worked figures of the rules: expected numbers written out, held against the system and against the own calculation.
use crate::drawn::{disagrees, widened};
use model::cutting::{Claim, cut};
use model::sharing::parts;
use scale::row::RowScale;
use scale::share::share;
use std::alloc::{AllocError, Global};
use trial::compare::same_numbers;

// One sharing: whether both give the parts.
fn share_is(
    heap: Global,
    amount: u32,
    weights: &[u32],
    wanted: &[u64],
) -> Result<bool, AllocError> {
    let mut out = vec![in heap; 7u32; weights.len()]?;
    let shared = share(amount, &RowScale::new(weights), out.as_mut_slice()).is_ok();
    let wide = widened(heap, weights)?;
    let own = parts(heap, u64::from(amount), wide.as_slice())?;
    Ok(shared && same_numbers(out.as_slice(), wanted) && own.as_slice() == wanted)
}

// What a shortfall leaves of 100 and 50 in class 1, 40 in class 2 and 90 in class 4, by the own rule.
fn cut_is(shortfall: u64, wanted: [u64; 4]) -> bool {
    let all = [claim(1, 100), claim(1, 50), claim(2, 40), claim(4, 90)];
    all.iter()
        .enumerate()
        .map(|(i, claim)| {
            let before = all.get(0..i).unwrap_or(&all);
            let off = cut(&all, before, *claim, shortfall);
            claim.amount.saturating_sub(off)
        })
        .eq(wanted.iter().copied())
}

fn claim(class: u16, amount: u64) -> Claim {
    Claim {
        seller: 1,
        class,
        amount,
    }
}

// The sharings of the rules.
fn shares_hold(heap: Global) -> Result<bool, AllocError> {
    Ok(
        share_is(heap, 10, &[1, 1, 1, 1], &[2, 3, 2, 3])?
            && share_is(heap, 5, &[2, 3, 2, 3], &[1, 1, 1, 2])?
            && share_is(heap, 8, &[2, 3, 2, 3], &[1, 3, 1, 3])?
            && share_is(heap, 0, &[5], &[0])?
            && share_is(heap, 3, &[0, 1, 0], &[0, 3, 0])?
            && share_is(heap, 1, &[1, 1, 1], &[0, 0, 1])?
            && share_is(heap, 5, &[1, 1, 1], &[1, 2, 2])?
            && share_is(heap, 4, &[1, 2, 2], &[0, 2, 2])?
            && share_is(heap, 5, &[1; 10], &[0, 1, 0, 1, 0, 1, 0, 1, 0, 1])?,
    )
}

pub fn compare_worked(rt: &HostRuntime) -> anyhow::Result<()> {
    if !shares_hold(rt.alloc())? {
        return disagrees(rt, "worked figures", 1);
    }
    let cuts = cut_is(31, [80, 39, 40, 90])
        && cut_is(170, [0, 0, 20, 90])
        && cut_is(500, [0, 0, 0, 90]);
    if !cuts {
        return disagrees(rt, "worked figures", 2);
    }
    println!(rt; "worked figures: 9 sharings and 3 cuts agree")?;
    Ok(())
}
