use crate::revise;
use book::contract::{Class, Contract, State, Terms};
use book::sizes::Sizes;
use book::sound::examine;
use entry::kinds::Net;
use entry::source::Source;
use scale::fault::Fault;
use std::test::Fail;

const TERMS: Terms = Terms {
    number: 7,
    seller: 1,
    buyer: 2,
    submarket: 1,
    class: Class::Free,
    source: Source::Conventional,
    first: 1,
    last: 2,
    amount: 10,
};

const OFFERED: Contract = Contract {
    terms: TERMS,
    effective: 0,
    state: State::Offered,
};

const WHOLE: Contract = Contract {
    terms: TERMS,
    effective: 10,
    state: State::InForce,
};

const CUT: Contract = Contract {
    terms: TERMS,
    effective: 5,
    state: State::InForce,
};

const ENDED: Contract = Contract {
    terms: TERMS,
    effective: 0,
    state: State::Ended,
};

// Examines the book as it was and as it is, and lets the board follow, in a month of two agents, hours and places.
fn follow(old: &[Contract; 2], new: &[Contract; 2], board: &mut [Net; 16]) -> Result<(), Fault> {
    let sizes = Sizes::new(2, 2, 2)?;
    let rows = [4, 6, 10, 0];
    examine(&sizes, old, &rows, &[])?;
    examine(&sizes, new, &rows, &[])?;
    revise(&sizes, old, new, &rows, board);
    Ok(())
}

#[test]
fn a_contract_enters_is_cut_and_ends(rt: HostRuntime) -> Result<(), Fail> {
    let mut board = [Net { units: 0 }; 16];
    follow(&[OFFERED, OFFERED], &[WHOLE, OFFERED], &mut board)?;
    assert_eq!(rt; (board[0].units, board[1].units), (4, 6));
    assert_eq!(rt; (board[8].units, board[9].units), (-4, -6));
    follow(&[WHOLE, OFFERED], &[CUT, OFFERED], &mut board)?;
    assert_eq!(rt; (board[0].units, board[1].units), (2, 3));
    follow(&[CUT, OFFERED], &[ENDED, OFFERED], &mut board)?;
    assert_eq!(rt; (board[0].units, board[1].units), (0, 0));
    assert_eq!(rt; (board[8].units, board[9].units), (0, 0));
    Ok(())
}

#[test]
fn a_contract_that_stays_is_left_as_it_is(rt: HostRuntime) -> Result<(), Fail> {
    let mut board = [Net { units: 0 }; 16];
    follow(&[OFFERED, OFFERED], &[CUT, WHOLE], &mut board)?;
    assert_eq!(rt; (board[0].units, board[1].units), (12, 3));
    follow(&[CUT, WHOLE], &[CUT, ENDED], &mut board)?;
    assert_eq!(rt; (board[0].units, board[1].units), (2, 3));
    Ok(())
}
