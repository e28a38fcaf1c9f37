// Samples out of words.
use crate::tables::stretch;
use fault::{Cause, Fault};
use std::test::Fail;
use units::{Samples, Unpacked, Width};

#[test]
fn samples_at_every_width(rt: HostRuntime) {
    let words = [1, 3, 15, 255, 65535, 0xff_ffff, 0xffff_ffff];
    let directory = [
        stretch(1, 0, 1),
        stretch(2, 0, 2),
        stretch(4, 0, 3),
        stretch(8, 0, 4),
        stretch(16, 1, 4),
        stretch(24, 5, 1),
        stretch(32, 0, 7),
    ];
    let unit = Unpacked::new(&words, &directory);
    assert!(rt; unit.width(0) == Some(Width::One));
    assert_eq!(rt; unit.sample(0, 0), Some(1));
    assert_eq!(rt; unit.sample(0, 1), None);
    assert_eq!(rt; unit.sample(1, 1), Some(3));
    assert_eq!(rt; unit.sample(2, 2), Some(15));
    assert_eq!(rt; unit.sample(3, 3), Some(255));
    assert_eq!(rt; unit.count(4), Some(4));
    assert_eq!(rt; unit.sample(4, 3), Some(65535));
    assert_eq!(rt; unit.sample(5, 0), Some(0xff_ffff));
    assert_eq!(rt; unit.sample(6, 6), Some(0xffff_ffff));
    assert_eq!(rt; unit.sample(6, 7), None);
    assert_eq!(rt; unit.sample(7, 0), None);
}

#[test]
fn words_outside_are_free(rt: HostRuntime) {
    let words = [7, 256, 7];
    let directory = [stretch(8, 0, 1), stretch(4, 2, 1), stretch(1, 3, 0)];
    let unit = Unpacked::new(&words, &directory);
    assert_eq!(rt; unit.sample(1, 0), Some(7));
    assert_eq!(rt; unit.count(2), Some(0));
    assert!(rt; unit.width(2) == Some(Width::One));
    assert_eq!(rt; unit.count(3), None);
}

#[test]
fn no_tables_where_the_check_fails(rt: HostRuntime) {
    let words = [7, 256];
    let directory = [stretch(8, 0, 1), stretch(8, 1, 1)];
    let unit = Unpacked::new(&words, &directory);
    assert!(rt; unit.width(0).is_none());
    assert_eq!(rt; unit.sample(0, 0), None);
}

#[test]
fn made_by_one_call(rt: HostRuntime) -> Result<(), Fail> {
    let words = [7, 256];
    let few_bits = [stretch(4, 0, 1)];
    let unit = Unpacked::over(&words, &few_bits)?;
    assert_eq!(rt; unit.sample(0, 0), Some(7));
    let too_great = Fault {
        cause: Cause::UnitStretch,
        index: 0,
        place: 1,
    };
    let directory = [stretch(8, 0, 2)];
    assert!(rt; Unpacked::over(&words, &directory).err() == Some(too_great));
    Ok(())
}
