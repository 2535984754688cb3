use crate::contract::{Contract, Offer, State};
use crate::cuts::recut;
use crate::lookup::find;
use crate::sizes::Sizes;
use crate::sound::examine;
use scale::fault::Fault;
use std::test::Fail;

const OFFER: Offer = Offer {
    number: 7,
    seller: 1,
    buyer: 2,
    submarket: 1,
    class: 1,
    source: 0,
    first: 1,
    last: 2,
    amount: 10,
};

// What is told of an answer: the reason's number and the spot, or zeros. Numbers, since they are what people are told.
fn told<T: Drop>(answer: Result<T, Fault>) -> (u16, usize) {
    match answer {
        Ok(_) => (0, 0),
        Err(fault) => (fault.reason.number(), fault.spot),
    }
}

fn told_of_amount(amount: u32) -> Result<(u16, usize), Fault> {
    let offer = Offer { amount, ..OFFER };
    Ok(told(offer.check(&Sizes::new(2, 2, 2)?)))
}

#[test]
fn sizes_at_their_limits(rt: HostRuntime) {
    assert_eq!(rt; told(Sizes::new(2, 744, 1)), (0, 0));
    assert_eq!(rt; told(Sizes::new(64, 1, 256)), (0, 0));
    assert_eq!(rt; told(Sizes::new(65, 745, 1)), (3, 1));
    assert_eq!(rt; told(Sizes::new(2, 745, 1)), (3, 2));
}

#[test]
fn offers_at_their_limits(rt: HostRuntime) -> Result<(), Fail> {
    assert_eq!(rt; told_of_amount(1)?, (0, 0));
    assert_eq!(rt; told_of_amount(1_000_000_000)?, (0, 0));
    assert_eq!(rt; told_of_amount(0)?, (4, 9));
    assert_eq!(rt; told_of_amount(1_000_000_001)?, (4, 9));
    let reversed = Offer {
        first: 2,
        last: 1,
        ..OFFER
    };
    assert_eq!(rt; told(reversed.check(&Sizes::new(2, 2, 2)?)), (4, 8));
    Ok(())
}

#[test]
fn unsound_books(rt: HostRuntime) -> Result<(), Fail> {
    let sizes = Sizes::new(2, 2, 2)?;
    let offered = Contract::offered(OFFER.terms(&sizes)?);
    let confirmed = Contract {
        state: State::InForce,
        ..offered
    };
    let taken = [offered, confirmed];
    assert_eq!(rt;
        told(examine(&sizes, &taken, &[9, 9, 4, 6], &[0, 2_000_000_000])),
        (0, 0)
    );
    assert_eq!(rt;
        told(examine(&sizes, &taken, &[9, 9, 4, 5], &[0, 2_000_000_001])),
        (2, 0)
    );
    assert_eq!(rt;
        told(examine(&sizes, &taken, &[9, 9, 4, 5], &[0, 0])),
        (2, 2)
    );
    assert_eq!(rt; find(&taken, 7), Some(1));
    Ok(())
}

fn in_force(class: u16, amount: u32) -> Result<Contract, Fault> {
    let offer = Offer {
        class,
        amount,
        ..OFFER
    };
    let offered = Contract::offered(offer.terms(&Sizes::new(2, 2, 2)?)?);
    Ok(Contract {
        state: State::InForce,
        ..offered
    })
}

// What a shortfall leaves, whatever an earlier one left.
fn effective(shortfall: u64) -> Result<[u32; 4], Fault> {
    let mut taken = [
        in_force(1, 100)?,
        in_force(1, 50)?,
        in_force(2, 40)?,
        in_force(4, 90)?,
    ];
    recut(&mut taken, 1, 60)?;
    recut(&mut taken, 1, shortfall)?;
    let [a, b, c, d] = taken;
    Ok([a.effective, b.effective, c.effective, d.effective])
}

#[test]
fn classes_are_cut_in_turn(rt: HostRuntime) -> Result<(), Fail> {
    assert_eq!(rt; effective(0)?, [100, 50, 40, 90]);
    assert_eq!(rt; effective(31)?, [80, 39, 40, 90]);
    assert_eq!(rt; effective(170)?, [0, 0, 20, 90]);
    assert_eq!(rt; effective(500)?, [0, 0, 0, 90]);
    Ok(())
}

#[test]
fn a_seller_over_the_limit(rt: HostRuntime) -> Result<(), Fail> {
    let mut taken = [
        in_force(1, 1_000_000_000)?,
        in_force(4, 1_000_000_000)?,
        in_force(2, 1)?,
    ];
    assert_eq!(rt; told(recut(&mut taken, 1, 5)), (15, 0));
    assert_eq!(rt; taken[0].effective, 0);
    assert_eq!(rt; told(recut(&mut taken[0..2], 1, 5)), (0, 0));
    assert_eq!(rt; taken[0].effective, 999_999_995);
    Ok(())
}
