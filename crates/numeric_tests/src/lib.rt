// Tests of the crate numeric on examples.
#![tactic(auto)]

ghost use Rattle.std.specs.Prelude.{◌≡◌};

#[cfg(test)]
mod tests {
    use numeric::{
        Numbers, Pair, Whole, all_finite, clamp, clamp_output, interpolate, pair_at, pair_count,
        pairs_rise, put, put_each,
    };
    use std::test::Fail;

    #[test]
    fn clamps_to_a_pair(rt: HostRuntime) {
        assert!(rt; clamp((0.0, 1.0), f32::NAN) == 1.0);
        assert!(rt; clamp((0.0, 1.0), f32::INFINITY) == 1.0);
        assert!(rt; clamp((0.0, 1.0), f32::NEG_INFINITY) == 0.0);
        assert!(rt; clamp((0.0, 1.0), -0.5) == 0.0);
        assert!(rt; clamp((0.0, 1.0), 1.5) == 1.0);
        assert!(rt; clamp((0.0, 1.0), 0.25) == 0.25);
        assert!(rt; clamp((0.5, 0.5), 0.25) == 0.5);
        assert!(rt; clamp((0.5, 0.5), f32::NAN) == 0.5);
    }

    // -0 equals 0, so it is not less than it, and stays
    #[test]
    fn keeps_a_negative_zero(rt: HostRuntime) {
        assert!(rt; 1.0 / clamp((0.0, 1.0), -0.0) == f32::NEG_INFINITY);
    }

    #[test]
    fn clamps_nothing_without_a_pair(rt: HostRuntime) {
        assert!(rt; clamp((1.0, 0.0), 5.0) == 5.0);
        assert!(rt; clamp((0.0, f32::INFINITY), -5.0) == -5.0);
    }

    #[test]
    fn makes_ordered_pairs_only(rt: HostRuntime) -> Result<(), Fail> {
        let pair = Pair::new(-1.0, 2.0).ok_or("no pair")?;
        assert!(rt; pair.low() == -1.0);
        assert!(rt; pair.high() == 2.0);
        assert!(rt; pair.clamp(-7.0) == -1.0);
        assert!(rt; Pair::new(-1.0, 2.0) == Some(pair));
        assert!(rt; Pair::new(2.0, 2.0).is_some());
        assert!(rt; Pair::new(2.0, -1.0).is_none());
        assert!(rt; Pair::new(f32::NAN, 1.0).is_none());
        assert!(rt; Pair::new(0.0, f32::NAN).is_none());
        assert!(rt; Pair::new(f32::NEG_INFINITY, 1.0).is_none());
        assert!(rt; Pair::new(0.0, f32::INFINITY).is_none());
        Ok(())
    }

    #[test]
    fn interpolates(rt: HostRuntime) {
        assert!(rt; interpolate(0.25, (0.0, 1.0), (10.0, 20.0)) == 12.5);
        assert!(rt; interpolate(3.0, (0.0, 2.0), (0.0, 1.0)) == 1.5);
        assert!(rt; interpolate(0.0, (0.0, 0.0), (1.0, 2.0)).is_nan());
        assert!(rt; interpolate(1.0, (0.0, 0.0), (1.0, 2.0)) == f32::INFINITY);
        assert!(rt; interpolate(f32::NAN, (0.0, 1.0), (1.0, 2.0)).is_nan());
        assert!(rt; interpolate(f32::INFINITY, (0.0, 1.0), (1.0, 2.0)) == f32::INFINITY);
        assert!(rt; interpolate(f32::INFINITY, (0.0, 1.0), (2.0, 2.0)).is_nan());
    }

    #[test]
    fn cuts_to_unsigned(rt: HostRuntime) {
        assert!(rt; u8::cut(f32::NAN) == 0);
        assert!(rt; u8::cut(f32::INFINITY) == 255);
        assert!(rt; u8::cut(f32::NEG_INFINITY) == 0);
        assert!(rt; u8::cut(-0.5) == 0);
        assert!(rt; u8::cut(-1.0) == 0);
        assert!(rt; u8::cut(255.9) == 255);
        assert!(rt; u8::cut(256.0) == 255);
        assert!(rt; u8::cut(7.99) == 7);
        assert!(rt; u32::cut(f32::NAN) == 0);
        assert!(rt; u32::cut(-1.0) == 0);
        assert!(rt; u32::cut(4e9) == 4_000_000_000);
        assert!(rt; u32::cut(f32::INFINITY) == u32::MAX);
    }

    #[test]
    fn cuts_to_signed(rt: HostRuntime) {
        assert!(rt; i32::cut(f32::NAN) == 0);
        assert!(rt; i32::cut(-0.5) == 0);
        assert!(rt; i32::cut(-1.5) == -1);
        assert!(rt; i32::cut(255.9) == 255);
        assert!(rt; i32::cut(2147483648.0) == i32::MAX);
        assert!(rt; i32::cut(-2147483648.0) == i32::MIN);
        assert!(rt; i32::cut(4e9) == i32::MAX);
        assert!(rt; i32::cut(f32::INFINITY) == i32::MAX);
        assert!(rt; i32::cut(f32::NEG_INFINITY) == i32::MIN);
    }

    // 16777217 lies in the middle of two floats, and the even one is 16777216
    #[test]
    fn rounds_to_the_nearest(rt: HostRuntime) {
        assert!(rt; u32::nearest(16777217) == 16777216.0);
        assert!(rt; u32::nearest(16777219) == 16777220.0);
        assert!(rt; u32::nearest(u32::MAX) == 4294967296.0);
        assert!(rt; i32::nearest(-16777217) == -16777216.0);
        assert!(rt; i32::nearest(i32::MIN) == -2147483648.0);
    }

    #[test]
    fn clamps_outputs_as_far_as_both_go(rt: HostRuntime) {
        let mut outputs = [5.0, -5.0, 9.0];
        clamp_output(&[0.0, 1.0, -1.0, 1.0], &mut outputs);
        assert_eq!(rt; outputs, [1.0, -1.0, 9.0]);
        let mut fewer = [5.0, f32::NAN];
        clamp_output(&[0.0, 1.0, 0.0, 2.0, 0.0, 3.0], &mut fewer);
        assert_eq!(rt; fewer, [1.0, 2.0]);
        let mut odd = [5.0, 6.0];
        clamp_output(&[0.0, 1.0, 0.0], &mut odd);
        assert_eq!(rt; odd, [1.0, 6.0]);
    }

    #[test]
    fn tests_lists(rt: HostRuntime) {
        assert!(rt; all_finite::<f32>(&[]));
        assert!(rt; all_finite(&[1.0, -0.0]));
        assert!(rt; !all_finite(&[1.0, f32::NAN]));
        assert!(rt; !all_finite(&[f32::INFINITY, 1.0]));
        assert!(rt; all_finite(&[(0.0, 1.0), (2.0, 1.0)]));
        assert!(rt; !all_finite(&[(0.0, 1.0), (2.0, f32::INFINITY)]));
        assert!(rt; pairs_rise(&[(0.0, 1.0), (-0.0, 0.0), (0.0, f32::INFINITY)]));
        assert!(rt; !pairs_rise(&[(0.0, 1.0), (2.0, 1.0)]));
        assert!(rt; !pairs_rise(&[(f32::NAN, 1.0)]));
    }

    #[test]
    fn lays_numbers_and_pairs(rt: HostRuntime) {
        let mut list = [0.0; 5];
        assert!(rt; put(&mut list, 1, &[1.0, 2.0]) == 3);
        assert!(rt; put(&mut list, 3, &[(3.0, 4.0)]) == 5);
        assert_eq!(rt; list, [0.0, 1.0, 2.0, 3.0, 4.0]);
        assert!(rt; put(&mut list, 4, &[7.0, 8.0]) == 4);
        assert!(rt; put(&mut list, 4, &[(7.0, 8.0)]) == 4);
        assert!(rt; put::<f32>(&mut list, 6, &[]) == 6);
        assert_eq!(rt; list, [0.0, 1.0, 2.0, 3.0, 4.0]);
    }

    #[test]
    fn lays_what_is_made_of_each(rt: HostRuntime) {
        let mut list = [0.0; 6];
        assert!(rt; put_each(&mut list, 0, &[1u8, 2], u8::nearest) == 2);
        assert!(rt; put_each(&mut list, 2, &[3u32, 5], |n| (-1.0, n.nearest())) == 6);
        assert_eq!(rt; list, [1.0, 2.0, -1.0, 3.0, -1.0, 5.0]);
        assert!(rt; put_each(&mut list, 3, &[7u32, 8], |n| (0.0, n.nearest())) == 3);
        assert_eq!(rt; list, [1.0, 2.0, -1.0, 3.0, -1.0, 5.0]);
    }

    #[test]
    fn lays_one_alone(rt: HostRuntime) {
        let mut list = [0.0; 4];
        assert!(rt; 1.0.put_at(&mut list, 3) == 4);
        assert!(rt; (2.0, 3.0).put_at(&mut list, 1) == 3);
        assert_eq!(rt; list, [0.0, 2.0, 3.0, 1.0]);
        assert!(rt; 7.0.put_at(&mut list, 4) == 4);
        assert!(rt; (7.0, 8.0).put_at(&mut list, 3) == 3);
        assert!(rt; (7.0, 8.0).put_at(&mut list, usize::MAX) == usize::MAX);
        assert_eq!(rt; list, [0.0, 2.0, 3.0, 1.0]);
    }

    #[test]
    fn tests_one_alone(rt: HostRuntime) {
        assert!(rt; Numbers::is_finite(1.0) && !Numbers::is_finite(f32::NAN));
        assert!(rt; (1.0, 2.0).is_finite() && !(1.0, f32::INFINITY).is_finite());
    }

    #[test]
    fn reads_pairs(rt: HostRuntime) {
        let list = [0.0, 1.0, -2.0, 3.0, 9.0];
        assert!(rt; pair_count(&list) == 2 && pair_count(&[7.0]) == 0);
        assert!(rt; pair_at(&list, 0) == Some((0.0, 1.0)));
        assert!(rt; pair_at(&list, 1) == Some((-2.0, 3.0)));
        assert!(rt; pair_at(&list, 2).is_none());
        assert!(rt; pair_at(&list, usize::MAX).is_none());
    }

    fn there_and_back<T: Whole>(n: T) -> T
        ensures { result ≡ T.cut (T.nearest n) }
    {
        T::cut(n.nearest())
    }

    // 16777217 is no f32, and u8 loses nothing
    #[test]
    fn goes_there_and_back(rt: HostRuntime) {
        assert!(rt; there_and_back(255u8) == 255);
        assert!(rt; there_and_back(16777217u32) == 16777216);
        assert!(rt; there_and_back(u32::MAX) == u32::MAX);
        assert!(rt; there_and_back(-5i32) == -5);
    }
}
