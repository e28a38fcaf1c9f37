// Summing samples over the corners, and decoding the sums.
ghost use Rattle.std.specs.Prelude.{◌≡◌, ◌+◌, ◌^◌, ◌<◌, ◌≤◌, length, replicate};
ghost use Rattle.numeric.specs.Lists.{pairs_of};
ghost use Rattle.units.specs.Samples.{width_in};
ghost use Rattle.function.specs.Outputs.{over};
ghost use Rattle.sampled.specs.Sampled.{zero, Summed, no_sample, add_corner, add_corners, top_of, decoded};

use crate::corners::Corners;
use crate::type0::Corner;
use arrayvec::ArrayVec;
use fault::{Cause, Fault};
use function::MAX_OUTPUTS;
use numeric::{Whole, interpolate};
use units::Samples;

// Where the samples of a function come from: a unit, a table in it, and the function's own index.
#[derive_where(Clone, Copy)]
pub(crate) struct Source<'a, S> {
    pub(crate) samples: &'a S,
    pub(crate) table: usize,
    pub(crate) index: usize,
}

impl<S: Samples> Source<'_, S> {
    // What is answered where a sample is missing.
    fn missing(&self, place: usize) -> Fault
        ensures { result ≡ no_sample self.now.index place }
    {
        Fault {
            cause: Cause::NoSample,
            index: self.index,
            place,
        }
    }

    // Adds weight * sample to each sum, in place: a list of its own for each corner costs time. Where a sample is missing,
    // those before it have been added, and the contract says nothing of the sums.
    fn add_corner(&self, corner: Corner, sums: &mut [f32]) -> Result<(), Fault>
        requires { corner.offset + length sums.old < 2 ^ 64 }
        ensures { Summed self.now.index (add_corner (S.tables self.now.samples.now) self.now.table corner.weight corner.offset sums.old) sums.new result }
    {
        for (i, sum) in sums.iter_mut().enumerate() {
            let place = corner.offset + i;
            let sample = self
                .samples
                .sample(self.table, place)
                .ok_or(self.missing(place))?;
            *sum = *sum + corner.weight * sample.nearest();
        }
        Ok(())
    }

    // The same for each corner in turn.
    pub(crate) fn add_corners(&self, corners: &Corners, sums: &mut [f32]) -> Result<(), Fault>
        requires { length sums.old ≤ 32 }
        ensures { Summed self.now.index (add_corners (S.tables self.now.samples.now) self.now.table corners.now.list.items sums.old) sums.new result }
    {
        for corner in corners.list.iter() {
            self.add_corner(*corner, sums)?;
        }
        Ok(())
    }

    // The largest sample, 0 where there is no table: no sum comes to be decoded by that.
    pub(crate) fn largest(&self) -> f32
        ensures { result ≡ top_of (width_in (S.tables self.now.samples.now) self.now.table) }
    {
        self.samples
            .width(self.table)
            .map_or(0.0, |width| width.largest().nearest())
    }
}

// The sums before any corner; the count is a number, whose bound no type carries.
pub(crate) fn zeros(count: usize) -> ArrayVec<f32, MAX_OUTPUTS>
    requires { count ≤ 32 }
    ensures { result.items ≡ replicate count zero }
{
    let mut list = ArrayVec::from([0.0; MAX_OUTPUTS]);
    list.truncate(count);
    list
}

// Writes the sums, taken to Decode, to the front of the outputs, as far as all three lists go.
pub(crate) fn put_decoded(top: f32, decode: &[f32], sums: &[f32], outputs: &mut [f32])
    ensures { outputs.new ≡ over (decoded top (pairs_of decode.now) sums.now) outputs.old }
{
    // No further than the sums go, however long the list is.
    let (pairs, _) = decode.as_chunks::<2>();
    let end = sums.len().min(pairs.len()).min(outputs.len());
    let front = &mut outputs[..end];
    // The sums and the pairs by index: what is written through a zipped iter_mut is lost to the proof.
    for (i, output) in front.iter_mut().enumerate() {
        let [first, second] = pairs[i];
        *output = interpolate(sums[i], (0.0, top), (first, second));
    }
}
