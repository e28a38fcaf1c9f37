// One input of a grid.
ghost use Rattle.std.specs.Prelude.{◌≡◌};
ghost use Rattle.sampled.specs.Sampled.{raised, lowered};
ghost use Rattle.sampled.specs.Grid.{place_of};

use crate::sizes::last_point;
use numeric::{clamp, interpolate};

// Its Domain and Encode pairs, and its Size.
#[derive(Clone, Copy, Debug, Default, PartialEq)]
pub(crate) struct Dimension {
    pub(crate) domain: (f32, f32),
    pub(crate) encode: (f32, f32),
    pub(crate) size: u32,
}

impl Dimension {
    // Where the input lies on the grid, from 0 to Size - 1.
    pub(crate) fn key(&self, input: f32) -> f32
        ensures { result ≡ place_of self.now input }
    {
        let x = clamp(self.domain, input);
        let place = interpolate(x, self.domain, self.encode);
        lower(last_point(self.size), raise(place))
    }
}

fn raise(v: f32) -> f32
    ensures { result ≡ raised v }
{
    if v.is_nan() || v < 0.0 { 0.0 } else { v }
}

fn lower(top: f32, v: f32) -> f32
    ensures { result ≡ lowered top v }
{
    if top < v { top } else { v }
}
