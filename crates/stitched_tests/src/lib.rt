// Stitched functions: every refusal, what is stored, and which part an input goes to.
#![tactic(auto)]

mod loaded;

#[cfg(test)]
mod tests {
    use crate::loaded::Loaded;
    use fault::{Cause, Fault};
    use stitched::{Chosen, Known, Needs, Stitched, Type3, find_interval};

    // Three functions of one input, the last seven deep, one of two inputs, and one eight deep.
    const FUNCTIONS: [Known; 5] = [
        Known {
            inputs: 1,
            depth: 1,
        },
        Known {
            inputs: 1,
            depth: 2,
        },
        Known {
            inputs: 1,
            depth: 7,
        },
        Known {
            inputs: 2,
            depth: 1,
        },
        Known {
            inputs: 1,
            depth: 8,
        },
    ];

    const UNIT: [(f32, f32); 1] = [(0.0, 1.0)];

    const TWO: [(f32, f32); 2] = [(0.0, 1.0), (1.0, 0.0)];

    fn two_parts<'c>(parts: &'c [usize], bounds: &'c [f32]) -> Stitched<'c> {
        Stitched {
            domain: &UNIT,
            range: &[],
            parts,
            bounds,
            encode: &TWO,
        }
    }

    fn answer(given: &Stitched) -> Result<Needs, Fault> {
        given.check(&Loaded {
            functions: &FUNCTIONS,
        })
    }

    fn is_refused(given: &Stitched, cause: Cause) -> bool {
        answer(given) == Err(Fault::new(cause, 5))
    }

    fn needs(given: &Stitched, numbers: usize, depth: usize) -> bool {
        answer(given) == Ok(Needs { numbers, depth })
    }

    #[test]
    fn takes_what_is_right(rt: HostRuntime) {
        assert!(rt; needs(&two_parts(&[0, 1], &[0.5]), 9, 3));
        assert!(rt; needs(&two_parts(&[2, 2], &[0.0]), 9, 8));
        assert!(rt; needs(&two_parts(&[0, 0], &[1.0]), 9, 2));
    }

    #[test]
    fn equal_bounds_do_not_fall(rt: HostRuntime) {
        assert!(rt;
            needs(
                &Stitched {
                    domain: &UNIT,
                    range: &TWO_RANGES,
                    parts: &[0, 0, 0],
                    bounds: &[0.5, 0.5],
                    encode: &[(0.0, 1.0), (0.0, 1.0), (0.0, 1.0)],
                },
                17,
                2,
            )
        );
    }

    const TWO_RANGES: [(f32, f32); 2] = [(0.0, 1.0), (-1.0, 1.0)];

    #[test]
    fn refuses_counts(rt: HostRuntime) {
        assert!(rt; is_refused(&two_parts(&[], &[]), Cause::Count));
        assert!(rt; is_refused(&two_parts(&[0; 33], &[0.5; 32]), Cause::Count));
        let mut given = two_parts(&[0, 1], &[0.5]);
        given.domain = &TWO_RANGES;
        assert!(rt; is_refused(&given, Cause::Count));
        given.domain = &[];
        assert!(rt; is_refused(&given, Cause::Count));
        given.domain = &UNIT;
        given.range = &[(0.0, 1.0); 65];
        assert!(rt; is_refused(&given, Cause::Count));
        given.range = &[(0.0, 1.0); 64];
        assert!(rt; needs(&given, 137, 3));
    }

    #[test]
    fn refuses_what_is_not_finite(rt: HostRuntime) {
        assert!(rt; is_refused(&two_parts(&[0, 1], &[f32::NAN]), Cause::NotFinite));
        assert!(rt; is_refused(&two_parts(&[0, 1], &[f32::INFINITY]), Cause::NotFinite));
        let mut given = two_parts(&[0, 1], &[0.5]);
        given.encode = &[(0.0, 1.0), (0.0, f32::NAN)];
        assert!(rt; is_refused(&given, Cause::NotFinite));
        given.encode = &TWO;
        given.range = &[(f32::NEG_INFINITY, 0.0)];
        assert!(rt; is_refused(&given, Cause::NotFinite));
        given.range = &[];
        given.domain = &[(f32::NAN, 1.0)];
        assert!(rt; is_refused(&given, Cause::NotFinite));
    }

    #[test]
    fn refuses_pairs_upside_down(rt: HostRuntime) {
        let mut given = two_parts(&[0, 1], &[0.5]);
        given.domain = &[(1.0, 0.0)];
        assert!(rt; is_refused(&given, Cause::UpsideDown));
        given.domain = &UNIT;
        given.range = &[(1.0, 0.0)];
        assert!(rt; is_refused(&given, Cause::UpsideDown));
    }

    #[test]
    fn refuses_counts_that_disagree(rt: HostRuntime) {
        assert!(rt; is_refused(&two_parts(&[0, 1], &[]), Cause::CountsDisagree));
        assert!(rt; is_refused(&two_parts(&[0, 1], &[0.5, 0.5]), Cause::CountsDisagree));
        assert!(rt; is_refused(&two_parts(&[0], &[]), Cause::CountsDisagree));
    }

    #[test]
    fn refuses_parts_bounds_and_depth(rt: HostRuntime) {
        assert!(rt; is_refused(&two_parts(&[0, 5], &[0.5]), Cause::Part));
        assert!(rt; is_refused(&two_parts(&[3, 0], &[0.5]), Cause::Part));
        assert!(rt; is_refused(&two_parts(&[0, 1], &[-0.5]), Cause::Bounds));
        assert!(rt; is_refused(&two_parts(&[0, 1], &[1.5]), Cause::Bounds));
        assert!(rt; is_refused(&two_parts(&[0, 4], &[0.5]), Cause::Depth));
        // the lower number first
        assert!(rt; is_refused(&two_parts(&[4, 5], &[1.5]), Cause::Part));
        assert!(rt; is_refused(&two_parts(&[4, 4], &[1.5]), Cause::Bounds));
    }

    #[test]
    fn refuses_bounds_that_fall(rt: HostRuntime) {
        let mut given = two_parts(&[0, 0, 0], &[0.5, 0.25]);
        given.encode = &[(0.0, 1.0), (0.0, 1.0), (0.0, 1.0)];
        assert!(rt; is_refused(&given, Cause::Bounds));
    }

    #[test]
    fn lays_its_numbers(rt: HostRuntime) {
        let given = two_parts(&[200, 255], &[0.5]);
        let mut numbers = [9.0f32; 9];
        assert!(rt; given.lay(&mut numbers, 1) == 8);
        assert_eq!(rt; numbers, [9.0, 200.0, 255.0, 0.5, 0.0, 1.0, 1.0, 0.0, 9.0]);
    }

    #[test]
    fn lays_nothing_without_room(rt: HostRuntime) {
        let given = two_parts(&[200, 255], &[0.5]);
        let mut numbers = [9.0f32; 7];
        assert!(rt; given.lay(&mut numbers, 1) == 1);
        assert!(rt; given.lay(&mut numbers, 8) == 8);
        assert_eq!(rt; numbers, [9.0; 7]);
        assert!(rt; given.lay(&mut numbers, 0) == 7);
        assert_eq!(rt; numbers, [200.0, 255.0, 0.5, 0.0, 1.0, 1.0, 0.0]);
    }

    #[test]
    fn finds_intervals(rt: HostRuntime) {
        assert!(rt; find_interval(&[], 5.0) == 0);
        assert!(rt; find_interval(&[0.25, 0.5, 0.5], -1.0) == 0);
        assert!(rt; find_interval(&[0.25, 0.5, 0.5], 0.25) == 1);
        assert!(rt; find_interval(&[0.25, 0.5, 0.5], 0.375) == 1);
        assert!(rt; find_interval(&[0.25, 0.5, 0.5], 0.5) == 3);
        assert!(rt; find_interval(&[0.25, 0.5, 0.5], f32::NAN) == 3);
    }

    fn is_chosen(function: &Type3, input: f32, stretch: usize, part: usize, value: f32) -> bool {
        let expected = Chosen {
            stretch,
            part,
            input: value,
        };
        function.choose(&[input]) == expected
    }

    // Encode pairs without a width, so that the input for the part tells them apart.
    const THREE: Type3<'static> = Type3 {
        domain: &[0.0, 1.0],
        range: &[],
        parts: &[7.0, 8.0, 9.0],
        bounds: &[0.25, 0.5],
        encode: &[10.0, 10.0, 20.0, 20.0, 30.0, 30.0],
    };

    #[test]
    fn chooses_at_each_bound(rt: HostRuntime) {
        assert!(rt; is_chosen(&THREE, -1.0, 0, 7, 10.0));
        assert!(rt; is_chosen(&THREE, 0.0, 0, 7, 10.0));
        assert!(rt; is_chosen(&THREE, 0.125, 0, 7, 10.0));
        assert!(rt; is_chosen(&THREE, 0.25, 1, 8, 20.0));
        assert!(rt; is_chosen(&THREE, 0.375, 1, 8, 20.0));
        assert!(rt; is_chosen(&THREE, 0.5, 2, 9, 30.0));
        assert!(rt; is_chosen(&THREE, 1.0, 2, 9, 30.0));
        assert!(rt; is_chosen(&THREE, 2.0, 2, 9, 30.0));
        assert!(rt; is_chosen(&THREE, f32::NAN, 2, 9, 30.0));
    }

    #[test]
    fn chooses_without_inputs(rt: HostRuntime) {
        let chosen = THREE.choose(&[]);
        assert!(rt; chosen.stretch == 2 && chosen.part == 9);
        assert!(rt; chosen.input.is_nan());
    }

    fn wide<'a>(domain: &'a [f32], bounds: &'a [f32], encode: &'a [f32]) -> Type3<'a> {
        Type3 {
            domain,
            range: &[],
            parts: &[0.0, 1.0],
            bounds,
            encode,
        }
    }

    // So far from 0 the hair is lost in rounding.
    #[test]
    fn encodes_far_from_zero(rt: HostRuntime) {
        assert!(rt; is_chosen(&wide(&[0.0, 2048.0], &[], &[0.0, 1.0]), 2048.0, 0, 0, 1.0));
        assert!(rt;
            is_chosen(
                &wide(&[4096.0, 4096.0], &[], &[0.25, 1.0]),
                4096.0,
                0,
                0,
                0.25,
            )
        );
        assert!(rt;
            is_chosen(
                &wide(&[0.0, 4096.0], &[4096.0], &[0.25, 1.0, 0.5, 1.0]),
                4096.0,
                1,
                1,
                0.5,
            )
        );
        assert!(rt;
            is_chosen(
                &wide(&[0.0, 4096.0], &[2048.0], &[0.0, 1.0, 1.0, 0.0]),
                3072.0,
                1,
                1,
                0.5,
            )
        );
    }

    // The hair keeps the ends of a narrow Domain apart, and shifts what lies near them.
    #[test]
    fn encodes_with_a_hair(rt: HostRuntime) {
        let chosen = wide(&[0.0, 0.0], &[], &[0.0, 1.0]).choose(&[0.0]);
        assert!(rt; chosen.input == 0.5);
        let shifted = wide(&[0.0, 1.0], &[], &[0.0, 1.0]).choose(&[0.0]);
        assert!(rt; shifted.input > 0.0 && shifted.input < 0.001);
    }
}
