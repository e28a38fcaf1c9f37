// Recorded answers: which record answers, and where none does.
use crate::bits::bits;
use units::{Answered, Arithmetic, Question, Recorded};

fn record(code: u8, x: f32, y: f32, answer: f32) -> Answered {
    Answered { code, x, y, answer }
}

#[test]
fn first_record_wins(rt: HostRuntime) {
    let items = [
        record(2, 2.0, 3.0, 1.0),
        record(1, 9.0, 0.0, 3.0),
        record(1, 9.0, 0.0, 4.0),
    ];
    let mut unit = Recorded::new(&items);
    assert_eq!(rt; unit.answer(Question::Root, 9.0, 0.0), 3.0);
    assert_eq!(rt; unit.answer(Question::Power, 2.0, 3.0), 1.0);
    assert_eq!(rt; unit.answer(Question::Root, 9.0, 0.0), 3.0);
}

#[test]
fn nan_for_nan(rt: HostRuntime) {
    let items = [record(4, f32::NAN, 0.0, 7.0), record(7, 1.0, f32::NAN, 8.0)];
    let mut unit = Recorded::new(&items);
    let zero = 0.0;
    assert_eq!(rt; unit.answer(Question::Log, zero / zero, 0.0), 7.0);
    assert_eq!(rt; unit.answer(Question::Atan, 1.0, -f32::NAN), 8.0);
    assert_eq!(rt; bits(unit.answer(Question::Log, 1.0, 0.0)), None);
}

#[test]
fn zeros_apart(rt: HostRuntime) {
    let items = [record(5, -0.0, 0.0, 1.0), record(5, 0.0, 0.0, -0.0)];
    let mut unit = Recorded::new(&items);
    assert_eq!(rt;
        bits(unit.answer(Question::Sine, 0.0, 0.0)),
        Some(0x8000_0000)
    );
    assert_eq!(rt; unit.answer(Question::Sine, -0.0, 0.0), 1.0);
    assert_eq!(rt; bits(unit.answer(Question::Sine, 0.0, -0.0)), None);
}

#[test]
fn no_record_fits(rt: HostRuntime) {
    let items = [
        record(3, 1.0, 1.0, 5.0),
        record(0, 1.0, 0.0, 6.0),
        record(8, 1.0, 0.0, 6.0),
        record(6, 1.0, 0.0, f32::NAN),
    ];
    let mut unit = Recorded::new(&items);
    // The second operand is not 0, the codes 0 and 8 are no question's, and one answer is NaN.
    assert_eq!(rt; bits(unit.answer(Question::Ln, 1.0, 0.0)), None);
    assert_eq!(rt; bits(unit.answer(Question::Root, 1.0, 0.0)), None);
    assert_eq!(rt; bits(unit.answer(Question::Cosine, 1.0, 0.0)), None);
}

#[test]
fn no_records(rt: HostRuntime) {
    let items = [record(1, 1.0, 0.0, 1.0)];
    let mut unit = Recorded::new(&items[0..0]);
    assert_eq!(rt; bits(unit.answer(Question::Root, 1.0, 0.0)), None);
}
