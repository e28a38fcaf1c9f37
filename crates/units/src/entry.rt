// What a sample unit's list is made of.
ghost use Rattle.std.specs.Prelude.{◌≡◌, ℕ, ◌-◌, ◌^◌, ◌<◌, min, Bool, not, List, length, All, IfNone};
ghost use Rattle.std.specs.List.{slice_get, position};
ghost use Rattle.units.specs.Samples.{bits_of};
ghost use Rattle.units.specs.declared.samples.Width.{Width};

use crate::samples::Width;

// Entries, and how those of a table spell its samples.
pub trait Entry: Copy {
    // Whether an entry may stand in a table of a width.
    ghost can_hold: { Width → Self → Bool };

    // The samples of a width that entries spell.
    ghost samples: { Width → List Self → List ℕ };

    // The first entry that may not stand there, if there is one.
    fn first_misfit(entries: &[Self], width: Width) -> Option<usize>
        ensures first { result ≡ position (λ e. not (can_hold width e)) entries.now }
        ensures fit { IfNone result (All (λ n. n < 2 ^ bits_of width) (samples width entries.now)) };

    // How many samples they spell, as far as a usize goes.
    fn count(entries: &[Self], width: Width) -> usize
        ensures { result ≡ min (length (samples width entries.now)) (2 ^ 64 - 1) };

    fn sample(entries: &[Self], width: Width, index: usize) -> Option<u32>
        ensures { result ≡ slice_get (samples width entries.now) index };
}
