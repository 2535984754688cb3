// A session of 3 agents, 4 hours and 2 places.
use crate::host::{EMPTY, OFFER, PASSED, lent, told};
use book::contract::{BLANK, Offer};
use entry::kinds::Net;
use month::phase::Month;
use scale::even::EvenScale;
use scale::fault::Fault;
use std::test::Fail;

fn units(position: Result<Net, Fault>) -> Option<i64> {
    position.ok().map(|net| net.units)
}

#[test]
fn a_contract_is_confirmed_cut_and_certified(rt: HostRuntime) -> Result<(), Fail> {
    let mut places = [BLANK; 2];
    let mut rows = [0; 8];
    let mut shortfalls = [0; 3];
    let mut board = [EMPTY; 48];
    let mut page = [0; 64];
    let mut month = Month::open(3, 4, 2, &places, &rows, &mut shortfalls, &mut board)?;
    let offer = Offer { last: 4, ..OFFER };
    let even = EvenScale::new(4);
    let offered = told(month.offer(&mut places, &rows, &shortfalls, &board, offer));
    let confirmed = told(month.confirm(
        &mut places,
        &mut rows,
        &shortfalls,
        &mut board,
        7,
        2,
        &even,
    ));
    let sold = units(month.position(&board, 1, 1, 2));
    let cut = told(month.tell(&mut places, &rows, &mut shortfalls, &mut board, 1, 5));
    let bought = units(month.position(&board, 2, 1, 4));
    let again = told(month.confirm(&mut places, &mut rows, &shortfalls, &mut board, 7, 2, &even));
    let month = month.close();
    let lent = lent(&places, &rows, &shortfalls, &board);
    let count = month.certificate(lent, 2, &mut page);
    month.discard();
    assert_eq!(rt;
        [offered, confirmed, cut, again],
        [PASSED, PASSED, PASSED, Err((10, 1))]
    );
    assert_eq!(rt; (sold, bought), (Some(3), Some(-2)));
    assert_eq!(rt; rows, [2, 3, 2, 3, 0, 0, 0, 0]);
    assert_eq!(rt; count?, 24);
    assert_eq!(rt; &page[0..24], b"agent 2 sold 0 bought 5\n".as_slice());
    Ok(())
}
