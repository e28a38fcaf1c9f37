// Clamping to pairs of numbers, and interpolation from one pair to another.
ghost use Rattle.std.specs.Prelude.{◌≡◌, true};
ghost use Rattle.numeric.specs.Interval.{ordered, within, clamp_all};
ghost use Rattle.numeric.specs.Interval.{clamp, interpolate};
ghost use Rattle.numeric.specs.Lists.{pairs_of};

use crate::pair::Pair;

// Clamps v by the pair; two numbers that make no Pair clamp nothing.
pub fn clamp(pair: (f32, f32), v: f32) -> f32
    ensures value { result ≡ clamp pair v }
    ensures inside { ordered pair ≡ true → within pair result ≡ true }
{
    let (low, high) = pair;
    Pair::new(low, high).map_or(v, |pair| pair.clamp(v))
}

// Clamps each output by its Range pair; `range` holds the pairs, number after number.
pub fn clamp_output(range: &[f32], outputs: &mut [f32])
    ensures { outputs.new ≡ clamp_all (pairs_of range.now) outputs.old }
{
    // No further than the pairs go, however long the list is.
    let (pairs, _) = range.as_chunks::<2>();
    let end = pairs.len().min(outputs.len());
    let front = &mut outputs[..end];
    // The pairs by index: what is written through a zipped iter_mut is lost to the proof.
    for (i, output) in front.iter_mut().enumerate() {
        let [low, high] = pairs[i];
        *output = clamp((low, high), *output);
    }
}

// Carries x from one pair over to the other. Each operation rounds once, also where the numbers of
// the first pair are equal.
pub fn interpolate(x: f32, from: (f32, f32), to: (f32, f32)) -> f32
    ensures { result ≡ interpolate x from to }
{
    let (x_min, x_max) = from;
    let (y_min, y_max) = to;
    y_min + (((x - x_min) * (y_max - y_min)) / (x_max - x_min))
}
