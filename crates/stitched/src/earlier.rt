// The functions that are loaded already, as far as a new stitched function must know them.
ghost use Rattle.std.specs.Prelude.{◌≡◌, ◌&&◌, List, length};
ghost use Rattle.std.specs.List.{slice_get};
ghost use Rattle.numeric.specs.Lists.{every};
ghost use Rattle.stitched.specs.Stitched.{is_part, depth_of, deepest};

// An earlier function: how many inputs it takes, and how deep it is.
#[derive(Clone, Copy, Debug, PartialEq, Eq)]
pub struct Known {
    pub inputs: usize,
    pub depth: usize,
}

pub trait Earlier {
    ghost use Rattle.stitched.specs.declared.earlier.Known.{Known};

    ghost known: { Self → List Known };

    fn count(&self) -> usize
        ensures { result ≡ length (known self.now) };

    // The function with that index, if one is loaded.
    fn get(&self, index: usize) -> Option<Known>
        ensures { result ≡ slice_get (known self.now) index };
}

// Whether a function with that index is loaded and takes one input.
fn is_part<E: Earlier>(earlier: &E, index: usize) -> bool
    ensures { result ≡ is_part (E.known earlier.now) index }
{
    earlier.get(index).is_some_and(|known| known.inputs == 1)
}

pub(crate) fn parts_loaded<E: Earlier>(earlier: &E, parts: &[usize]) -> bool
    ensures { result ≡ every (is_part (E.known earlier.now)) parts.now }
{
    parts.iter().all(|part| is_part(earlier, *part))
}

// How deep a part is; one that is not loaded is not deep.
fn depth_of<E: Earlier>(earlier: &E, index: usize) -> usize
    ensures { result ≡ depth_of (E.known earlier.now) index }
{
    earlier.get(index).map_or(0, |known| known.depth)
}

// The depth of the deepest part.
pub(crate) fn deepest<E: Earlier>(earlier: &E, parts: &[usize]) -> usize
    ensures { result ≡ deepest (E.known earlier.now) parts.now }
{
    parts
        .iter()
        .map(|part| depth_of(earlier, *part))
        .max()
        .unwrap_or(0)
}
