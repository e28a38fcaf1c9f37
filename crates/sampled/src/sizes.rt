// The Sizes of a grid.
ghost use Rattle.std.specs.Prelude.{◌≡◌, ◌-◌, take, pos};
ghost use Rattle.numeric.specs.Interval.{both_finite};
ghost use Rattle.numeric.specs.Lists.{every};
ghost use Rattle.numeric.specs.Whole.{nearest_to};
ghost use Rattle.function.specs.Limits.{most_inputs};
ghost use Rattle.sampled.specs.Sampled.{sizes_fit, sizes_in, whole_grid};

use crate::type0::MAX_INPUTS;
use arrayvec::ArrayVec;
use numeric::Whole;

const MAX_SIZE: u32 = 65_535;

const MAX_SAMPLES: usize = 1_048_576;

// Whether each Size is in its limits, and the whole grid too, with so many outputs at each point.
pub(crate) fn sizes_fit(sizes: &[u32], outputs: usize) -> bool
    ensures { result ≡ sizes_fit sizes.now outputs }
{
    let samples = sizes.iter().fold(outputs, |samples, size| {
        samples.saturating_mul(*size as usize)
    });
    sizes.iter().all(|size| (1..=MAX_SIZE).contains(size)) && samples <= MAX_SAMPLES
}

// The Sizes that are stored as floats, up to as many as there may be inputs.
pub(crate) fn cut_sizes(numbers: &[f32]) -> ArrayVec<u32, MAX_INPUTS>
    ensures { result.items ≡ take most_inputs (sizes_in numbers.now) }
{
    let mut sizes = ArrayVec::new();
    // A loop of pushes: extend and from_iter answer a Result, and this cannot fail.
    for number in numbers.iter().take(MAX_INPUTS) {
        sizes.push(u32::cut(*number));
    }
    sizes
}

// The last grid point of a dimension.
pub(crate) fn last_point(size: u32) -> f32
    ensures { result ≡ nearest_to (pos (size - 1)) }
{
    size.saturating_sub(1).nearest()
}

// Whether the pairs from 0 to the last grid points are finite.
pub(crate) fn grid_finite(sizes: &[u32]) -> bool
    ensures { result ≡ every both_finite (whole_grid sizes.now) }
{
    sizes.iter().all(|size| last_point(*size).is_finite())
}
