// Clamping a function's input and outputs to pairs that lie in the number list, number after number.
ghost use Rattle.std.specs.Prelude.{◌≡◌, take};
ghost use Rattle.numeric.specs.Interval.{clamp_all};
ghost use Rattle.numeric.specs.Lists.{pairs_of};
ghost use Rattle.function.specs.Answer.{first};
ghost use Rattle.function.specs.Outputs.{over};

use numeric::{clamp, clamp_output, pair_at};

// The first input, clamped to its Domain pair where there is one; a NaN where there is no input, and no
// Option: the kinds that ask for it cannot fail, and the contract fixes this value.
pub fn clamp_first(domain: &[f32], inputs: &[f32]) -> f32
    ensures { result ≡ first (clamp_all (pairs_of domain.now) inputs.now) }
{
    let Some(input) = inputs.first() else {
        return f32::NAN;
    };
    pair_at(domain, 0).map_or(*input, |pair| clamp(pair, *input))
}

// Clamps the first `count` outputs to the Range, pair by pair, as far as both go.
pub fn clamp_front(range: &[f32], count: usize, outputs: &mut [f32])
    ensures { outputs.new ≡ over (clamp_all (pairs_of range.now) (take count outputs.old)) outputs.old }
{
    let end = count.min(outputs.len());
    clamp_output(range, &mut outputs[..end]);
}
