// The grid of a function that can be computed.
ghost use Rattle.std.specs.Prelude.{◌≡◌, ◌≤◌, true, length};
ghost use Rattle.numeric.specs.Interval.{clamp_all};
ghost use Rattle.numeric.specs.Lists.{pairs_of};
ghost use Rattle.sampled.specs.Grid.{domains_of, encodes_of, sizes_of};
ghost use Rattle.sampled.specs.Sampled.{sizes_fit, corners_at};

use crate::corners::{Corners, spread};
use crate::dimension::Dimension;
use crate::type0::{Corner, MAX_INPUTS};
use arrayvec::ArrayVec;

// Its dimensions, and how many outputs each of its points has.
#[derive(Drop)]
pub(crate) struct Grid {
    pub(crate) dimensions: ArrayVec<Dimension, MAX_INPUTS>,
    pub(crate) outputs: usize,
    ghost few: { length dimensions.items ≤ 4 },
    ghost fit: { sizes_fit (sizes_of dimensions.items) outputs ≡ true },
}

impl Grid {
    pub(crate) fn new(
        domain: &[f32],
        encode: &[f32],
        sizes: &ArrayVec<u32, MAX_INPUTS>,
        outputs: usize,
    ) -> Grid
        requires domain { length (pairs_of domain.now) ≡ length sizes.now.items }
        requires encode { length (pairs_of encode.now) ≡ length sizes.now.items }
        requires fit { sizes_fit sizes.now.items outputs ≡ true }
        ensures domain { domains_of result.dimensions.items ≡ pairs_of domain.now }
        ensures encode { encodes_of result.dimensions.items ≡ pairs_of encode.now }
        ensures sizes { sizes_of result.dimensions.items ≡ sizes.now.items }
        ensures outputs { result.outputs ≡ outputs }
    {
        // A loop of pushes: extend and from_iter answer a Result, and this cannot fail.
        let mut dimensions = ArrayVec::new();
        let (domain, _) = domain.as_chunks::<2>();
        let (encode, _) = encode.as_chunks::<2>();
        for ((domain, encode), size) in domain.iter().zip(encode).zip(sizes.iter()) {
            dimensions.push(Dimension {
                domain: (domain[0], domain[1]),
                encode: (encode[0], encode[1]),
                size: *size,
            });
        }
        Grid {
            dimensions,
            outputs,
        }
    }

    // The grid points around the inputs.
    pub(crate) fn corners(&self, inputs: &[f32]) -> Corners
        ensures { let ds = self.now.dimensions.items in result.list.items ≡ corners_at (domains_of ds) (sizes_of ds) (encodes_of ds) self.now.outputs (clamp_all (domains_of ds) inputs.now) }
    {
        let mut list = ArrayVec::new();
        list.push(Corner {
            weight: 1.0,
            offset: 0,
        });
        let mut stride = self.outputs;
        for (dimension, input) in self.dimensions.iter().zip(inputs) {
            list = spread(dimension.key(*input), stride, &list);
            stride *= dimension.size as usize;
        }
        Corners { list }
    }
}
