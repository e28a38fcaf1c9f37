// Evaluating a loaded sampled function.
ghost use Rattle.std.specs.Prelude.{◌≡◌, length, IfSome, ◌==◌};
ghost use Rattle.std.specs.Option.{option_map};
ghost use Rattle.numeric.specs.Lists.{pairs_of};
ghost use Rattle.function.specs.Answer.{reply_of};
ghost use Rattle.sampled.specs.Grid.{GridOf, sizes_of};
ghost use Rattle.sampled.specs.Sampled.{shape_fits, sizes_in, OwnSizes, loaded_answer, outputs_after};

use crate::grid::Grid;
use crate::sizes::{cut_sizes, sizes_fit};
use crate::sums::{Source, put_decoded, zeros};
use crate::type0::{MAX_INPUTS, Type0};
use fault::{Cause, Fault};
use function::{Counts, MAX_OUTPUTS, clamp_front};
use numeric::pair_count;
use units::Samples;

impl Type0<'_> {
    fn shape_fits(&self, inputs: usize) -> bool
        ensures { result ≡ shape_fits (pairs_of self.now.domain.now) (sizes_in self.now.sizes.now) (pairs_of self.now.encode.now) (pairs_of self.now.decode.now) inputs }
    {
        (1..=MAX_INPUTS).contains(&inputs)
            && pair_count(self.domain) == inputs
            && self.sizes.len() == inputs
            && pair_count(self.encode) == inputs
            && (1..=MAX_OUTPUTS).contains(&pair_count(self.decode))
    }

    // The grid, or none where the function cannot be computed with so many inputs.
    fn grid(&self, inputs: usize) -> Option<Grid>
        ensures own { OwnSizes self.now inputs (option_map (λ grid. sizes_of grid.dimensions.items) result) }
        ensures parts { IfSome result (λ grid. GridOf self.now grid.dimensions.items grid.outputs) }
    {
        if !self.shape_fits(inputs) {
            return None;
        }
        let sizes = cut_sizes(self.sizes);
        let outputs = pair_count(self.decode);
        if sizes_fit(&sizes, outputs) {
            Some(Grid::new(self.domain, self.encode, &sizes, outputs))
        } else {
            None
        }
    }

    // Writes the outputs for the inputs to the front of the list, as far as it goes; a refusal writes nothing.
    pub fn eval<S: Samples>(
        &self,
        samples: &S,
        index: usize,
        inputs: &[f32],
        outputs: &mut [f32],
    ) -> Result<Counts, Fault>
        ensures reply { result ≡ reply_of (loaded_answer (S.tables samples.now) index self.now inputs.now) }
        ensures wrote { outputs.new ≡ outputs_after (loaded_answer (S.tables samples.now) index self.now inputs.now) outputs.old }
    {
        let grid = self
            .grid(inputs.len())
            .ok_or(Fault::new(Cause::Size, index))?;
        let source = Source {
            samples,
            table: self.table,
            index,
        };
        let corners = grid.corners(inputs);
        let mut sums = zeros(grid.outputs);
        source.add_corners(&corners, &mut sums)?;
        put_decoded(source.largest(), self.decode, &sums, outputs);
        clamp_front(self.range, sums.len(), outputs);
        Ok(Counts {
            outputs: sums.len(),
            steps: 1 + corners.list.len(),
            drops: 0,
        })
    }
}
