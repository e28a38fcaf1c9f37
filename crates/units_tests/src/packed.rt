// Samples out of bytes.
use crate::tables::stretch;
use fault::{Cause, Fault};
use std::test::Fail;
use units::{Packed, Samples, Width};

#[test]
fn samples_of_four_tables(rt: HostRuntime) {
    let bytes = [0xa5, 0x12, 0x34, 0x56];
    let directory = [
        stretch(4, 1, 2),
        stretch(1, 0, 1),
        stretch(24, 0, 4),
        stretch(32, 0, 4),
    ];
    let unit = Packed::new(&bytes, &directory);
    assert!(rt; unit.width(0) == Some(Width::Four));
    assert_eq!(rt; unit.count(0), Some(4));
    assert_eq!(rt; unit.sample(0, 0), Some(1));
    assert_eq!(rt; unit.sample(0, 3), Some(4));
    assert_eq!(rt; unit.sample(0, 4), None);
    assert_eq!(rt; unit.count(1), Some(8));
    assert_eq!(rt; unit.sample(1, 0), Some(1));
    assert_eq!(rt; unit.sample(1, 1), Some(0));
    assert_eq!(rt; unit.sample(1, 7), Some(1));
    assert_eq!(rt; unit.count(2), Some(1));
    assert_eq!(rt; unit.sample(2, 0), Some(0xa51234));
    assert_eq!(rt; unit.sample(3, 0), Some(0xa5123456));
}

#[test]
fn bits_left_over(rt: HostRuntime) {
    let bytes = [0xb4, 0x1e, 0xc3, 0x7f, 0x02];
    let directory = [
        stretch(2, 0, 5),
        stretch(8, 1, 4),
        stretch(16, 0, 5),
        stretch(24, 0, 5),
        stretch(32, 0, 5),
    ];
    let unit = Packed::new(&bytes, &directory);
    assert_eq!(rt; unit.count(0), Some(20));
    assert_eq!(rt; unit.sample(0, 1), Some(3));
    assert_eq!(rt; unit.sample(0, 19), Some(2));
    assert_eq!(rt; unit.sample(1, 3), Some(2));
    assert_eq!(rt; unit.count(2), Some(2));
    assert_eq!(rt; unit.sample(2, 1), Some(0xc37f));
    assert_eq!(rt; unit.sample(2, 2), None);
    assert_eq!(rt; unit.count(3), Some(1));
    assert_eq!(rt; unit.sample(3, 1), None);
    assert_eq!(rt; unit.count(4), Some(1));
    assert_eq!(rt; unit.sample(4, usize::MAX), None);
}

#[test]
fn empty_tables_and_none(rt: HostRuntime) {
    let bytes = [1, 2];
    let directory = [stretch(16, 2, 0), stretch(24, 0, 2)];
    let unit = Packed::new(&bytes, &directory);
    assert!(rt; unit.width(0) == Some(Width::Sixteen));
    assert_eq!(rt; unit.count(0), Some(0));
    assert_eq!(rt; unit.sample(0, 0), None);
    assert_eq!(rt; unit.count(1), Some(0));
    assert!(rt; unit.width(2).is_none());
    assert_eq!(rt; unit.count(2), None);
    assert_eq!(rt; unit.sample(usize::MAX, 0), None);
}

#[test]
fn no_tables_where_the_check_fails(rt: HostRuntime) {
    let bytes = [1, 2];
    let directory = [stretch(8, 0, 2), stretch(8, 0, 3)];
    let unit = Packed::new(&bytes, &directory);
    assert!(rt; unit.width(0).is_none());
    assert_eq!(rt; unit.count(0), None);
    assert_eq!(rt; unit.sample(0, 0), None);
}

#[test]
fn made_by_one_call(rt: HostRuntime) -> Result<(), Fail> {
    let bytes = [1, 2];
    let within = [stretch(8, 0, 2)];
    let unit = Packed::over(&bytes, &within)?;
    assert_eq!(rt; unit.sample(0, 1), Some(2));
    let beyond = [stretch(8, 0, 2), stretch(8, 0, 3)];
    assert!(rt; Packed::over(&bytes, &beyond).err() == Some(Fault::new(Cause::UnitStretch, 1)));
    Ok(())
}
