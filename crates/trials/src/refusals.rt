// Every refusal of every call, once.
use crate::host::{EMPTY, Host, OFFER, PASSED, lent, told, told_opening};
use book::contract::{BLANK, Offer};
use book::sizes::Sizes;
use month::phase::Month;
use scale::even::EvenScale;
use std::test::Fail;

#[test]
fn sizes_at_their_limits(rt: HostRuntime) {
    assert_eq!(rt; told(Sizes::new(2, 744, 1)), PASSED);
    assert_eq!(rt; told(Sizes::new(64, 1, 256)), PASSED);
    assert_eq!(rt; told(Sizes::new(1, 745, 0)), Err((3, 1)));
    assert_eq!(rt; told(Sizes::new(65, 1, 1)), Err((3, 1)));
    assert_eq!(rt; told(Sizes::new(2, 745, 0)), Err((3, 2)));
    assert_eq!(rt; told(Sizes::new(2, 0, 1)), Err((3, 2)));
    assert_eq!(rt; told(Sizes::new(2, 1, 257)), Err((3, 3)));
}

#[test]
fn opening_wants_exact_memories(rt: HostRuntime) {
    let places = [BLANK; 4];
    let rows = [0; 7];
    let mut owed = [0; 3];
    let mut board = [EMPTY; 17];
    let told = [
        told_opening(Month::open(2, 2, 3, &places, &rows, &mut owed, &mut board)),
        told_opening(Month::open(2, 2, 3, &places[0..3], &rows, &mut owed, &mut board)),
        told_opening(Month::open(2, 2, 3, &places[0..3], &rows[0..6], &mut owed, &mut board)),
        told_opening(Month::open(
            2,
            2,
            3,
            &places[0..3],
            &rows[0..6],
            &mut owed[0..2],
            &mut board,
        )),
        told_opening(Month::open(2, 745, 3, &places, &rows, &mut owed, &mut board)),
    ];
    assert_eq!(rt;
        told,
        [
            Err((1, 1)),
            Err((1, 2)),
            Err((1, 3)),
            Err((1, 4)),
            Err((3, 2))
        ]
    );
}

// Each memory in turn is too long.
#[test]
fn changes_want_exact_memories(rt: HostRuntime) -> Result<(), Fail> {
    let mut places = [BLANK; 3];
    let mut rows = [0; 6];
    let mut owed = [0; 2];
    let mut board = [EMPTY; 16];
    let mut month = Month::open(2, 2, 3, &places, &rows, &mut owed, &mut board)?;
    let even = EvenScale::new(2);
    let told = [
        told(month.offer(&mut [BLANK; 4], &rows, &owed, &board, OFFER)),
        told(month.confirm(&mut places, &mut [0; 7], &owed, &mut board, 7, 2, &even)),
        told(month.end(&mut places, &rows, &[0; 3], &mut board, 7, 2)),
        told(month.tell(&mut places, &rows, &mut owed, &mut [EMPTY; 17], 1, 5)),
    ];
    month.discard();
    assert_eq!(rt; told, [Err((1, 1)), Err((1, 2)), Err((1, 3)), Err((1, 4))]);
    Ok(())
}

#[test]
fn questions_want_exact_memories(rt: HostRuntime) -> Result<(), Fail> {
    let places = [BLANK; 3];
    let rows = [0; 6];
    let mut owed = [0; 2];
    let mut board = [EMPTY; 16];
    let month = Month::open(2, 2, 3, &places, &rows, &mut owed, &mut board)?.close();
    let told = [
        told(month.lookup(lent(&[BLANK; 4], &rows, &owed, &board), 7)),
        told(month.turnover(lent(&places, &[0; 7], &owed, &board), 1)),
        told(month.certificate(lent(&places, &rows, &[0; 3], &board), 1, &mut [0; 64])),
        told(month.position(&[EMPTY; 17], 1, 1, 1)),
        told(month.balance(&[EMPTY; 17], 1, 1)),
    ];
    month.discard();
    assert_eq!(rt;
        told,
        [
            Err((1, 1)),
            Err((1, 2)),
            Err((1, 3)),
            Err((1, 4)),
            Err((1, 4))
        ]
    );
    Ok(())
}

#[test]
fn a_shortfall_too_large_is_unsound(rt: HostRuntime) -> Result<(), Fail> {
    let mut host = Host::new();
    let mut month = host.open()?;
    host.shortfalls[1] = 2_000_000_001;
    let changes = [
        host.offer(&mut month, OFFER),
        host.confirm(&month, 7, 2, &[1, 1]),
        host.end(&month, 7, 2),
        host.tell(&month, 1, 5),
    ];
    let month = month.close();
    let questions = [
        host.lookup(&month, 7),
        host.turnover(&month, 1),
        host.certificate(&month, 1, &mut [0; 64]),
    ];
    month.discard();
    assert_eq!(rt; changes, [Err((2, 0)); 4]);
    assert_eq!(rt; questions, [Err((2, 0)); 3]);
    Ok(())
}

#[test]
fn a_bad_place_is_unsound(rt: HostRuntime) -> Result<(), Fail> {
    let mut host = Host::new();
    let mut month = host.open()?;
    let offered = [
        host.offer(&mut month, OFFER),
        host.offer(&mut month, Offer { number: 8, ..OFFER }),
    ];
    host.places[1].effective = 11;
    let changes = [
        host.offer(&mut month, OFFER),
        host.confirm(&month, 7, 2, &[1, 1]),
        host.end(&month, 7, 2),
        host.tell(&month, 1, 5),
    ];
    let month = month.close();
    let questions = [
        host.lookup(&month, 7),
        host.turnover(&month, 1),
        host.certificate(&month, 1, &mut [0; 64]),
    ];
    month.discard();
    assert_eq!(rt; offered, [PASSED; 2]);
    assert_eq!(rt; changes, [Err((2, 2)); 4]);
    assert_eq!(rt; questions, [Err((2, 2)); 3]);
    Ok(())
}

#[test]
fn offers_outside_their_limits(rt: HostRuntime) -> Result<(), Fail> {
    let mut host = Host::new();
    let mut month = host.open()?;
    let told = [
        host.offer(&mut month, Offer { number: 0, ..OFFER }),
        host.offer(&mut month, Offer { seller: 3, ..OFFER }),
        host.offer(&mut month, Offer { buyer: 0, ..OFFER }),
        host.offer(
            &mut month,
            Offer {
                submarket: 5,
                ..OFFER
            },
        ),
        host.offer(&mut month, Offer { class: 5, ..OFFER }),
        host.offer(&mut month, Offer { source: 2, ..OFFER }),
        host.offer(&mut month, Offer { first: 3, ..OFFER }),
        host.offer(
            &mut month,
            Offer {
                first: 2,
                last: 1,
                ..OFFER
            },
        ),
        host.offer(&mut month, Offer { amount: 0, ..OFFER }),
        host.offer(
            &mut month,
            Offer {
                amount: 1_000_000_001,
                ..OFFER
            },
        ),
        host.offer(&mut month, Offer { buyer: 1, ..OFFER }),
    ];
    month.discard();
    assert_eq!(rt;
        told,
        [
            Err((4, 1)),
            Err((4, 2)),
            Err((4, 3)),
            Err((4, 4)),
            Err((4, 5)),
            Err((4, 6)),
            Err((4, 7)),
            Err((4, 8)),
            Err((4, 9)),
            Err((4, 9)),
            Err((5, 0)),
        ]
    );
    Ok(())
}

#[test]
fn offers_take_the_next_place_or_none(rt: HostRuntime) -> Result<(), Fail> {
    let mut host = Host::new();
    let mut month = host.open()?;
    let told = [
        host.offer(&mut month, Offer { amount: 1, ..OFFER }),
        host.offer(
            &mut month,
            Offer {
                number: 8,
                amount: 1_000_000_000,
                ..OFFER
            },
        ),
        host.end(&month, 8, 1),
        host.offer(&mut month, Offer { number: 8, ..OFFER }),
        host.offer(
            &mut month,
            Offer {
                number: 65_535,
                ..OFFER
            },
        ),
        host.offer(&mut month, Offer { number: 9, ..OFFER }),
    ];
    month.discard();
    assert_eq!(rt;
        told,
        [PASSED, PASSED, PASSED, Err((6, 2)), PASSED, Err((7, 0))]
    );
    Ok(())
}

#[test]
fn confirmations_are_refused(rt: HostRuntime) -> Result<(), Fail> {
    let mut host = Host::new();
    let mut month = host.open()?;
    let offered = host.offer(&mut month, OFFER);
    let told = [
        host.confirm(&month, 8, 2, &[1, 1]),
        host.confirm(&month, 7, 1, &[1, 1]),
        host.confirm(&month, 7, 2, &[1, 1, 1]),
        host.confirm(&month, 7, 2, &[0, 0]),
        host.confirm(&month, 7, 2, &[2_000_000_000, 1]),
        host.confirm(&month, 7, 2, &[2_000_000_000, 0]),
        host.confirm(&month, 7, 1, &[1, 1]),
        host.confirm(&month, 7, 2, &[1, 1]),
    ];
    month.discard();
    assert_eq!(rt; offered, PASSED);
    assert_eq!(rt;
        told,
        [
            Err((8, 0)),
            Err((9, 1)),
            Err((11, 0)),
            Err((12, 0)),
            Err((13, 2)),
            PASSED,
            Err((9, 1)),
            Err((10, 1)),
        ]
    );
    // The repeat moved nothing.
    assert_eq!(rt; host.rows, [10, 0, 0, 0, 0, 0]);
    assert_eq!(rt; (host.board[0].units, host.board[8].units), (10, -10));
    Ok(())
}

#[test]
fn a_seller_at_its_limit(rt: HostRuntime) -> Result<(), Fail> {
    let mut host = Host::new();
    let mut month = host.open()?;
    let most = Offer {
        amount: 1_000_000_000,
        ..OFFER
    };
    let offered = [
        host.offer(&mut month, most),
        host.offer(&mut month, Offer { number: 8, ..most }),
        host.offer(
            &mut month,
            Offer {
                number: 9,
                amount: 1,
                ..OFFER
            },
        ),
    ];
    let told = [
        host.confirm(&month, 7, 2, &[1, 1]),
        host.confirm(&month, 8, 2, &[1, 1]),
        host.confirm(&month, 9, 2, &[1, 1]),
    ];
    month.discard();
    assert_eq!(rt; offered, [PASSED; 3]);
    assert_eq!(rt; told, [PASSED, PASSED, Err((15, 3))]);
    Ok(())
}

#[test]
fn endings_and_tellings_are_refused(rt: HostRuntime) -> Result<(), Fail> {
    let mut host = Host::new();
    let mut month = host.open()?;
    let told = [
        host.offer(&mut month, OFFER),
        host.end(&month, 8, 1),
        host.end(&month, 7, 3),
        host.end(&month, 7, 1),
        host.end(&month, 7, 2),
        host.tell(&month, 0, 5),
        host.tell(&month, 3, 2_000_000_001),
        host.tell(&month, 2, 2_000_000_001),
        host.tell(&month, 2, 2_000_000_000),
    ];
    month.discard();
    assert_eq!(rt;
        told,
        [
            PASSED,
            Err((8, 0)),
            Err((9, 1)),
            PASSED,
            Err((10, 1)),
            Err((4, 1)),
            Err((4, 1)),
            Err((16, 0)),
            PASSED,
        ]
    );
    Ok(())
}

#[test]
fn questions_are_refused(rt: HostRuntime) -> Result<(), Fail> {
    let mut host = Host::new();
    let month = host.open()?.close();
    let told = [
        host.position(&month, 3, 5, 3),
        host.position(&month, 2, 5, 3),
        host.position(&month, 2, 4, 3),
        host.position(&month, 2, 4, 2),
        host.balance(&month, 0, 0),
        host.balance(&month, 4, 0),
        host.balance(&month, 4, 2),
        host.turnover(&month, 0),
        host.lookup(&month, 0),
        host.certificate(&month, 3, &mut [0; 63]),
        host.certificate(&month, 2, &mut [0; 63]),
        host.certificate(&month, 2, &mut [0; 64]),
    ];
    month.discard();
    assert_eq!(rt;
        told,
        [
            Err((4, 1)),
            Err((4, 2)),
            Err((4, 3)),
            PASSED,
            Err((4, 1)),
            Err((4, 2)),
            PASSED,
            Err((4, 1)),
            PASSED,
            Err((4, 1)),
            Err((14, 0)),
            PASSED,
        ]
    );
    Ok(())
}
