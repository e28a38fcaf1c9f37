// Between floats and integers. Cutting drops the fraction, a NaN gives 0, and what lies beyond the
// width gives its nearest end. An integer becomes the nearest f32, ties to even.
ghost use Rattle.std.specs.Prelude.{◌≡◌, Float, pos};
ghost use Rattle.numeric.specs.Whole.{cut_unsigned, cut_signed, nearest_to};

use std::num;

// An integer of some width.
pub trait Whole: Copy {
    ghost cut: { Float → Self };

    ghost nearest: { Self → Float };

    fn cut(x: f32) -> Self
        ensures { result ≡ cut x };

    fn nearest(self) -> f32
        ensures { result ≡ nearest self };
}

impl Whole for u8 {
    ghost cut = { cut_unsigned 8 };

    ghost nearest = { λ n. nearest_to (pos n) };

    fn cut(x: f32) -> u8 {
        num::saturating_f32_to_u8(x)
    }

    fn nearest(self) -> f32 {
        f32::from(self)
    }
}

impl Whole for u32 {
    ghost cut = { cut_unsigned 32 };

    ghost nearest = { λ n. nearest_to (pos n) };

    fn cut(x: f32) -> u32 {
        num::saturating_f32_to_u32(x)
    }

    fn nearest(self) -> f32 {
        num::nearest_u32_to_f32(self)
    }
}

impl Whole for i32 {
    ghost cut = { cut_signed 31 };

    ghost nearest = { nearest_to };

    fn cut(x: f32) -> i32 {
        num::saturating_f32_to_i32(x)
    }

    fn nearest(self) -> f32 {
        num::nearest_i32_to_f32(self)
    }
}
