// What is given: the checks in their order, and the numbers that are laid.
use crate::bytes;
use fault::{Cause, Fault};
use sampled::Sampled;
use units::Unpacked;

const UNIT: [(f32, f32); 1] = [(0.0, 1.0)];

const TWO: [(f32, f32); 2] = [(0.0, 1.0); 2];

const FOUR: [(f32, f32); 4] = [(0.0, 1.0); 4];

const DOWN: [(f32, f32); 1] = [(1.0, 0.0)];

const ENDLESS: [(f32, f32); 1] = [(0.0, f32::INFINITY)];

fn plain<'c>(domain: &'c [(f32, f32)], sizes: &'c [u32], range: &'c [(f32, f32)]) -> Sampled<'c> {
    Sampled {
        domain,
        sizes,
        range,
        encode: None,
        decode: None,
        table: 0,
    }
}

// The entries, or why the function cannot be loaded at the index 3.
fn said<'c>(
    domain: &'c [(f32, f32)],
    sizes: &'c [u32],
    range: &'c [(f32, f32)],
) -> Result<usize, Fault> {
    plain(domain, sizes, range).check(3)
}

fn refused(cause: Cause) -> Result<usize, Fault> {
    Err(Fault::new(cause, 3))
}

#[test]
fn entries(rt: HostRuntime) {
    assert_eq!(rt; said(&UNIT, &[3], &UNIT), Ok(9));
    assert_eq!(rt; said(&FOUR, &[2, 3, 4, 5], &UNIT), Ok(24));
}

#[test]
fn refusals_in_order(rt: HostRuntime) {
    assert_eq!(rt; said(&[], &[0], &DOWN), refused(Cause::Count));
    assert_eq!(rt; said(&ENDLESS, &[0], &DOWN), refused(Cause::NotFinite));
    assert_eq!(rt; said(&DOWN, &[0, 1], &UNIT), refused(Cause::UpsideDown));
    assert_eq!(rt; said(&UNIT, &[0, 1], &UNIT), refused(Cause::CountsDisagree));
    assert_eq!(rt; said(&UNIT, &[0], &UNIT), refused(Cause::Size));
}

#[test]
fn products(rt: HostRuntime) {
    assert_eq!(rt; said(&TWO, &[1024, 1024], &UNIT), Ok(14));
    assert_eq!(rt; said(&TWO, &[1024, 1024], &TWO), refused(Cause::Size));
    assert_eq!(rt; said(&TWO, &[1024, 1025], &UNIT), refused(Cause::Size));
    assert_eq!(rt; said(&UNIT, &[65_536], &UNIT), refused(Cause::Size));
    assert_eq!(rt; said(&FOUR, &[u32::MAX; 4], &UNIT), refused(Cause::Size));
}

#[test]
fn numbers_laid(rt: HostRuntime) {
    let given = plain(&UNIT, &[3], &[(0.0, 255.0)]);
    let mut list = [7.0; 6];
    assert_eq!(rt; given.put_sizes(&mut list, 1), 2);
    assert_eq!(rt; given.put_encode(&mut list, 2), 4);
    assert_eq!(rt; given.put_decode(&mut list, 4), 6);
    assert_eq!(rt; given.put_decode(&mut list, 5), 5);
    assert_eq!(rt; list, [7.0, 3.0, 0.0, 2.0, 0.0, 255.0]);
}

#[test]
fn tables(rt: HostRuntime) {
    let directory = [bytes(3)];
    let unit = Unpacked::new(&[1, 2, 3], &directory);
    let given = plain(&UNIT, &[3], &UNIT);
    assert!(rt; given.has_table(&unit));
    let other = Sampled { table: 1, ..given };
    assert!(rt; !other.has_table(&unit));
}
