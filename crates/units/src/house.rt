// The unit that needs no hardware: roots, and powers with small whole exponents.
// What it has no answer for is NaN: a unit refuses nothing, and its meaning fixes this value.
ghost use Rattle.std.specs.Prelude.{◌≡◌, false, T};
ghost use Rattle.std.specs.Float.Ieee.{eq, le};
ghost use Rattle.std.specs.Float.{float_is_finite, inf};
ghost use Rattle.units.specs.House as spec;

use crate::arithmetic::Arithmetic;
use crate::question::Question;
use std::num::{nearest_u32_to_f32, saturating_f32_to_u32};

// The largest exponent that is multiplied out.
const MOST_FACTORS: u32 = 64;

#[derive(Clone, Copy, Debug)]
pub struct House;

impl Arithmetic for House {
    ghost meaning = { λ _. spec.house };

    #[tactic(auto, using(crate::proofs::Nans::nan_is))]
    fn answer(&mut self, question: Question, x: f32, y: f32) -> f32 {
        match question {
            Question::Root => root(x),
            Question::Power => power(x, y),
            Question::Ln | Question::Log | Question::Sine | Question::Cosine | Question::Atan =>
                f32::NAN,
        }
    }
}

// The f32 nearest to the root of an x from 0 up: +0 for both zeros, infinity for infinity. NaN for any other x.
pub fn root(x: f32) -> f32
    ensures value { result ≡ spec.root x }
    ensures nearest { T (float_is_finite x) → T (le spec.none x) → spec.IsRoot x result }
    ensures zero { T (eq x spec.none) → result ≡ spec.none }
    ensures infinity { x ≡ inf false → result ≡ inf false }
{
    if x >= 0.0 {
        if x == 0.0 { 0.0 } else { x.sqrt() }
    } else {
        f32::NAN
    }
}

// The base multiplied e times, each product rounded, for a whole e from 0 to 64; NaN for any other.
#[tactic(auto, using(crate::proofs::Nans::nan_is))]
pub fn power(base: f32, e: f32) -> f32
    ensures { result ≡ spec.power base e }
{
    let factors = saturating_f32_to_u32(e);
    if factors <= MOST_FACTORS && e == nearest_u32_to_f32(factors) {
        product(base, factors)
    } else {
        f32::NAN
    }
}

// 1, multiplied n times by the base.
fn product(base: f32, n: u32) -> f32
    ensures { result ≡ spec.product base n }
{
    (0..n).fold(1.0, |product, _| product * base)
}
