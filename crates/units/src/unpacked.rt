// The sample unit whose tables lie in a list of words, one sample each.
ghost use Rattle.units.specs.Unpacked.{word_fits};

use crate::entry::Entry;
use crate::samples::Width;
use crate::unit::SampleUnit;

// The unit over words.
pub type Unpacked<'a> = SampleUnit<'a, u32>;

impl Entry for u32 {
    ghost can_hold = { word_fits };

    ghost samples = { λ _ words. words };

    // A word with more bits than the width.
    fn first_misfit(words: &[u32], width: Width) -> Option<usize> {
        words.iter().position(|word| *word > width.largest())
    }

    fn count(words: &[u32], _width: Width) -> usize {
        words.len()
    }

    fn sample(words: &[u32], _width: Width, index: usize) -> Option<u32> {
        words.get(index).copied()
    }
}
