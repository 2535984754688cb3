// The cut of one contract, each worked out alone from the sums that it depends on.
use crate::call::Named;
use crate::sharing::part_between;

// What a cut looks at: a seller's contract in force, its class and its amount. The class is a number as in the call that named it.
#[derive(Clone, Copy, PartialEq, Eq, Debug)]
pub struct Claim {
    pub seller: u16,
    pub class: u16,
    pub amount: u64,
}

impl From<Named> for Claim {
    fn from(named: Named) -> Claim {
        Claim {
            seller: named.seller,
            class: named.class,
            amount: u64::from(named.amount),
        }
    }
}

// The amounts of a seller's claims whose class is from `low` to `high`.
pub fn claimed(claims: &[Claim], seller: u16, low: u16, high: u16) -> u64 {
    claims
        .iter()
        .filter(|claim| claim.seller == seller && (low..=high).contains(&claim.class))
        .map(|claim| claim.amount)
        .fold(0, u64::wrapping_add)
}

// What a seller's shortfall takes off the claim that comes after `before` and ahead of the rest in place order.
// `all` holds every claim, `before` those at earlier places.
pub fn cut(all: &[Claim], before: &[Claim], claim: Claim, shortfall: u64) -> u64 {
    if claim.class > 3 {
        return 0;
    }
    let sooner = claimed(all, claim.seller, 1, claim.class.saturating_sub(1));
    let total = claimed(all, claim.seller, claim.class, claim.class);
    let class_cut = shortfall.saturating_sub(sooner).min(total);
    let from = claimed(before, claim.seller, claim.class, claim.class);
    part_between(class_cut, total, from, from.wrapping_add(claim.amount))
}
