// Every refusal of a sample unit, with its whole fault.
use crate::tables::stretch;
use fault::{Cause, Fault};
use units::{Packed, Unpacked};

fn refusal(cause: Cause, index: usize, place: usize) -> Result<(), Fault> {
    Err(Fault {
        cause,
        index,
        place,
    })
}

#[test]
fn shapes(rt: HostRuntime) {
    let byte = [0];
    let odd = [stretch(3, 0, 1)];
    assert_eq!(rt; Packed::check(&byte, &odd), refusal(Cause::UnitShape, 0, 0));
    // A wrong width comes before a stretch outside.
    let second = [stretch(8, 0, 9), stretch(7, 0, 0)];
    assert_eq!(rt;
        Packed::check(&byte, &second),
        refusal(Cause::UnitShape, 1, 0)
    );
    let none = [stretch(8, 0, 1), stretch(0, 0, 1)];
    assert_eq!(rt;
        Packed::check(&byte, &none),
        refusal(Cause::UnitShape, 1, 0)
    );
}

#[test]
fn numbers_of_tables(rt: HostRuntime) {
    let byte = [0];
    let most = [stretch(8, 0, 1); 64];
    assert!(rt; Packed::check(&byte, &most).is_ok());
    assert!(rt; Packed::check(&byte, &most[0..0]).is_ok());
    // Too many come before a wrong width.
    let more = [stretch(7, 0, 9); 65];
    assert_eq!(rt;
        Packed::check(&byte, &more),
        refusal(Cause::UnitShape, 0, 0)
    );
    let words = [0];
    assert_eq!(rt;
        Unpacked::check(&words, &more),
        refusal(Cause::UnitShape, 0, 0)
    );
}

#[test]
fn stretches_outside(rt: HostRuntime) {
    let byte = [0];
    let beyond = [stretch(8, 0, 1), stretch(8, 1, 1)];
    assert_eq!(rt;
        Packed::check(&byte, &beyond),
        refusal(Cause::UnitStretch, 1, 0)
    );
    let past_end = [stretch(8, 1, 0), stretch(8, 2, 0)];
    assert_eq!(rt;
        Packed::check(&byte, &past_end),
        refusal(Cause::UnitStretch, 1, 0)
    );
}

#[test]
fn stretches_far_outside(rt: HostRuntime) {
    let byte = [0];
    let start = [stretch(8, usize::MAX, 1)];
    assert_eq!(rt;
        Packed::check(&byte, &start),
        refusal(Cause::UnitStretch, 0, 0)
    );
    let length = [stretch(8, 1, usize::MAX)];
    assert_eq!(rt;
        Packed::check(&byte, &length),
        refusal(Cause::UnitStretch, 0, 0)
    );
    let words = [0];
    let both = [stretch(8, usize::MAX, usize::MAX)];
    assert_eq!(rt;
        Unpacked::check(&words, &both),
        refusal(Cause::UnitStretch, 0, 0)
    );
}

#[test]
fn words_with_more_bits(rt: HostRuntime) {
    let words = [255, 256, 0, 0, 0];
    let first = [stretch(8, 0, 2), stretch(2, 2, 3)];
    assert_eq!(rt;
        Unpacked::check(&words, &first),
        refusal(Cause::UnitStretch, 0, 1)
    );
    let other_words = [255, 256, 0, 0, 4];
    let second = [stretch(8, 0, 1), stretch(2, 2, 3)];
    assert_eq!(rt;
        Unpacked::check(&other_words, &second),
        refusal(Cause::UnitStretch, 1, 4)
    );
    // The words of a table come before the next table's stretch.
    let outside = [stretch(8, 0, 2), stretch(8, 5, 1)];
    assert_eq!(rt;
        Unpacked::check(&words, &outside),
        refusal(Cause::UnitStretch, 0, 1)
    );
}
