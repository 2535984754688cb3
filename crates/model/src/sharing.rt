// Sharing, by carrying the remainder from part to part: another way than rounding the running total.
use std::alloc::{AllocError, Global};

// The total of some numbers.
pub fn sum(numbers: &[u64]) -> u64 {
    numbers.iter().copied().fold(0, u64::wrapping_add)
}

// The parts that weights get of an amount; nothing, where they weigh nothing.
pub fn parts(heap: Global, amount: u64, weights: &[u64]) -> Result<Vec<u64>, AllocError> {
    let total = sum(weights);
    if total == 0 {
        return Ok(Vec::new(heap));
    }
    weights
        .iter()
        .scan(0u64, |carried, weight| {
            let due = amount.wrapping_mul(*weight).wrapping_add(*carried);
            *carried = due % total;
            Some(due / total)
        })
        .collect(heap)
}

// What the weights from `from` up to `to` get of an amount over a total: the difference of two exact products rounded down.
pub fn part_between(amount: u64, total: u64, from: u64, to: u64) -> u64 {
    if total == 0 {
        return 0;
    }
    let whole = u128::from(total);
    let low = u128::from(amount).wrapping_mul(u128::from(from)) / whole;
    let high = u128::from(amount).wrapping_mul(u128::from(to)) / whole;
    u64::try_from(high.wrapping_sub(low)).unwrap_or(u64::MAX)
}
