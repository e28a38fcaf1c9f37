// Loaded functions on small tables of 8 bits.
use crate::bytes;
use fault::{Cause, Fault};
use sampled::Type0;
use units::{Samples, Unpacked};

#[derive(Clone, Copy)]
struct Seen {
    output: f32,
    steps: Result<usize, Fault>,
}

// The first output, which is -1 where nothing is written, of a function at the index 5.
fn run<S: Samples>(function: &Type0, unit: &S, inputs: &[f32]) -> Seen {
    let mut outputs = [-1.0];
    let steps = function
        .eval(unit, 5, inputs, &mut outputs)
        .map(|counts| counts.steps);
    Seen {
        output: outputs[0],
        steps,
    }
}

const BYTES: [f32; 2] = [0.0, 255.0];

const UNIT: [f32; 2] = [0.0, 1.0];

// Three grid points from 0 to 1.
fn line<'a>(domain: &'a [f32], encode: &'a [f32]) -> Type0<'a> {
    Type0 {
        domain,
        range: &BYTES,
        sizes: &[3.0],
        encode,
        decode: &BYTES,
        table: 0,
    }
}

// Two by two grid points.
fn square<'a>() -> Type0<'a> {
    Type0 {
        domain: &[0.0, 1.0, 0.0, 1.0],
        range: &BYTES,
        sizes: &[2.0, 2.0],
        encode: &[0.0, 1.0, 0.0, 1.0],
        decode: &BYTES,
        table: 0,
    }
}

#[test]
fn between_neighbours(rt: HostRuntime) {
    let function = line(&UNIT, &[0.0, 2.0]);
    let directory = [bytes(3)];
    let unit = Unpacked::new(&[10, 20, 40], &directory);
    let whole = run(&function, &unit, &[0.5]);
    assert_eq!(rt; whole.output, 20.0);
    assert!(rt; whole.steps == Ok(2));
    let between = run(&function, &unit, &[0.25]);
    assert_eq!(rt; between.output, 15.0);
    assert!(rt; between.steps == Ok(3));
    assert_eq!(rt; run(&function, &unit, &[9.0]).output, 40.0);
    assert_eq!(rt; run(&function, &unit, &[f32::NAN]).output, 40.0);
}

#[test]
fn first_input_varies_fastest(rt: HostRuntime) {
    let directory = [bytes(4)];
    let unit = Unpacked::new(&[1, 2, 3, 4], &directory);
    assert_eq!(rt; run(&square(), &unit, &[1.0, 0.0]).output, 2.0);
    assert_eq!(rt; run(&square(), &unit, &[0.0, 1.0]).output, 3.0);
    let middle = run(&square(), &unit, &[0.5, 0.5]);
    assert_eq!(rt; middle.output, 2.5);
    assert!(rt; middle.steps == Ok(5));
}

#[test]
fn one_point_domain_gives_key_0(rt: HostRuntime) {
    let function = line(&[0.5, 0.5], &[0.0, 2.0]);
    let directory = [bytes(3)];
    let unit = Unpacked::new(&[10, 20, 40], &directory);
    let one = run(&function, &unit, &[0.5]);
    assert_eq!(rt; one.output, 10.0);
    assert!(rt; one.steps == Ok(2));
}

#[test]
fn upside_down_encode(rt: HostRuntime) {
    let function = line(&UNIT, &[2.0, 0.0]);
    let directory = [bytes(3)];
    let unit = Unpacked::new(&[10, 20, 40], &directory);
    assert_eq!(rt; run(&function, &unit, &[0.25]).output, 30.0);
    assert_eq!(rt; run(&function, &unit, &[1.0]).output, 10.0);
}

#[test]
fn missing_sample(rt: HostRuntime) {
    let function = line(&UNIT, &[0.0, 2.0]);
    let directory = [bytes(2)];
    let unit = Unpacked::new(&[10, 20], &directory);
    let lacking = run(&function, &unit, &[0.75]);
    let fault = Fault {
        cause: Cause::NoSample,
        index: 5,
        place: 2,
    };
    assert!(rt; lacking.steps == Err(fault));
    assert_eq!(rt; lacking.output, -1.0);
}

#[test]
fn not_what_loading_lets_in(rt: HostRuntime) {
    let directory = [bytes(3)];
    let unit = Unpacked::new(&[10, 20, 40], &directory);
    let size = Err(Fault::new(Cause::Size, 5));
    assert!(rt; run(&line(&UNIT, &[0.0, 2.0]), &unit, &[]).steps == size);
    assert!(rt; run(&line(&UNIT, &[0.0, 2.0]), &unit, &[0.5, 0.5]).steps == size);
    assert!(rt; run(&line(&UNIT, &[]), &unit, &[0.5]).steps == size);
}
