use crate::even::EvenScale;
use crate::fault::{Fault, Reason};
use crate::row::RowScale;
use crate::share::{fill_row, share};
use crate::total::total;
use std::test::Fail;

fn fault(reason: Reason, spot: usize) -> Fault {
    Fault { reason, spot }
}

fn total_of(row: &[u32]) -> Result<u32, Fault> {
    total(&RowScale::new(row))
}

#[test]
fn five_over_ten_even_hours(rt: HostRuntime) -> Result<(), Fail> {
    let mut row = [7; 10];
    share(5, &EvenScale::new(10), &mut row)?;
    assert_eq!(rt; row, [0, 1, 0, 1, 0, 1, 0, 1, 0, 1]);
    Ok(())
}

#[test]
fn totals_at_their_limits(rt: HostRuntime) {
    let billion = 1_000_000_000;
    assert_eq!(rt; total_of(&[0, 0]), Err(fault(Reason::ScaleWeightless, 0)));
    assert_eq!(rt; total_of(&[0, 1]), Ok(1));
    assert_eq!(rt; total_of(&[billion, billion]), Ok(2_000_000_000));
    assert_eq!(rt;
        total_of(&[billion, billion, 0, 1]),
        Err(fault(Reason::ScaleHeavy, 4))
    );
}

#[test]
fn a_refusal_leaves_the_memory(rt: HostRuntime) {
    let mut row = [7, 8];
    assert_eq!(rt;
        share(5, &EvenScale::new(3), &mut row),
        Err(fault(Reason::ScaleLength, 0))
    );
    assert_eq!(rt;
        share(2_000_000_001, &EvenScale::new(2), &mut row),
        Err(fault(Reason::FieldOutside, 1))
    );
    assert_eq!(rt; row, [7, 8]);
}

#[test]
fn a_clip_keeps_its_edges(rt: HostRuntime) -> Result<(), Fail> {
    let mut row = [7; 5];
    fill_row(6, &EvenScale::new(5), 2, 4, &mut row)?;
    assert_eq!(rt; row, [0, 2, 2, 2, 0]);
    Ok(())
}
