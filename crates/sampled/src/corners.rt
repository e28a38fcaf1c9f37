// Grid points, taken on to the next input.
ghost use Rattle.std.specs.Prelude.{◌≡◌, ◌+◌, ◌*◌, ◌^◌, ◌<◌, ◌≤◌, ◌++◌, length};
ghost use Rattle.std.proofs.Props.{props};
ghost use Rattle.sampled.specs.Sampled.{split, spread, OffsetsBelow};

use crate::type0::Corner;
use arrayvec::ArrayVec;
use numeric::Whole;

// Four inputs have 2 neighbours each.
const MAX_CORNERS: usize = 16;

// The grid points around the inputs.
#[derive(Drop)]
pub(crate) struct Corners {
    pub(crate) list: ArrayVec<Corner, MAX_CORNERS>,
    ghost near: { OffsetsBelow (2 ^ 63) list.items } by { Prim.hlevel props },
}

// Appends the corner, taken on to the input with that key: its one neighbour, or the two.
fn push_split(key: f32, stride: usize, c: Corner, list: &mut ArrayVec<Corner, MAX_CORNERS>)
    requires stride { stride ≤ 1048576 }
    requires offset { c.offset < 2 ^ 63 }
    requires room { length list.old.items + 2 ≤ 16 }
    ensures { list.new.items ≡ list.old.items ++ split key stride c }
{
    let low = u32::cut(key);
    let beyond = key - low.nearest();
    let offset = c.offset + low as usize * stride;
    if beyond == 0.0 {
        list.push(Corner {
            weight: c.weight,
            offset,
        });
    } else {
        list.push(Corner {
            weight: c.weight * (1.0 - beyond),
            offset,
        });
        list.push(Corner {
            weight: c.weight * beyond,
            offset: offset + stride,
        });
    }
}

// The corners, taken on to the input with that key.
pub(crate) fn spread(key: f32, stride: usize, corners: &[Corner]) -> ArrayVec<Corner, MAX_CORNERS>
    requires stride { stride ≤ 1048576 }
    requires offsets { OffsetsBelow (2 ^ 63) corners.now }
    requires room { 2 * length corners.now ≤ 16 }
    ensures { result.items ≡ spread key stride corners.now }
{
    let mut list = ArrayVec::new();
    // A loop of pushes: each corner gives one or two.
    for corner in corners {
        push_split(key, stride, *corner, &mut list);
    }
    list
}
