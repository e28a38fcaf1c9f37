// The house unit's answers, bit by bit.
use crate::bits::bits;
use units::{Arithmetic, House, Question, power, root};

#[test]
fn roots_of_no_positive_number(rt: HostRuntime) {
    assert_eq!(rt; bits(root(0.0)), Some(0));
    assert_eq!(rt; bits(root(-0.0)), Some(0));
    assert_eq!(rt; bits(root(-1.0)), None);
    assert_eq!(rt; bits(root(f32::NEG_INFINITY)), None);
    assert_eq!(rt; bits(root(f32::NAN)), None);
}

#[test]
fn roots_are_nearest(rt: HostRuntime) {
    assert_eq!(rt; bits(root(4.0)), Some(0x4000_0000));
    assert_eq!(rt; bits(root(2.0)), Some(0x3fb5_04f3));
    // The smallest subnormal, and another.
    assert_eq!(rt; bits(root(1e-45)), Some(0x1a35_04f3));
    assert_eq!(rt; bits(root(1e-40)), Some(0x1e3c_e4e7));
    assert_eq!(rt; bits(root(f32::MAX)), Some(0x5f7f_ffff));
    assert_eq!(rt; bits(root(f32::INFINITY)), Some(0x7f80_0000));
}

#[test]
fn powers_with_whole_exponents(rt: HostRuntime) {
    assert_eq!(rt; power(3.0, 0.0), 1.0);
    assert_eq!(rt; power(3.0, -0.0), 1.0);
    assert_eq!(rt; power(3.0, 1.0), 3.0);
    assert_eq!(rt; power(-3.0, 2.0), 9.0);
    assert_eq!(rt; power(2.0, 64.0), 18446744073709551616.0);
    assert_eq!(rt; power(-10.0, 64.0), f32::INFINITY);
    // The nearest f32 to the power is 0x43de_e566: each product is rounded.
    assert_eq!(rt; bits(power(1.1, 64.0)), Some(0x43de_e561));
}

#[test]
fn powers_that_it_has_not(rt: HostRuntime) {
    assert_eq!(rt; bits(power(2.0, 65.0)), None);
    assert_eq!(rt; bits(power(2.0, 0.5)), None);
    assert_eq!(rt; bits(power(2.0, -1.0)), None);
    assert_eq!(rt; bits(power(2.0, f32::INFINITY)), None);
    assert_eq!(rt; bits(power(2.0, f32::NAN)), None);
}

#[test]
fn powers_of_nan(rt: HostRuntime) {
    assert_eq!(rt; power(f32::NAN, 0.0), 1.0);
    assert_eq!(rt; bits(power(f32::NAN, 1.0)), None);
}

#[test]
fn answers_by_question(rt: HostRuntime) {
    let mut unit = House;
    assert_eq!(rt; unit.answer(Question::Root, 9.0, 0.0), 3.0);
    assert_eq!(rt; unit.answer(Question::Power, 2.0, 3.0), 8.0);
    assert_eq!(rt; bits(unit.answer(Question::Ln, 1.0, 0.0)), None);
    assert_eq!(rt; bits(unit.answer(Question::Log, 1.0, 0.0)), None);
    assert_eq!(rt; bits(unit.answer(Question::Sine, 0.0, 0.0)), None);
    assert_eq!(rt; bits(unit.answer(Question::Cosine, 0.0, 0.0)), None);
    assert_eq!(rt; bits(unit.answer(Question::Atan, 0.0, 1.0)), None);
}
