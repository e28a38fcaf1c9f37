// The directory of a sample unit.
ghost use Rattle.std.specs.Prelude.{◌≡◌, ◌+◌, ◌≤◌, length, nat_le};
ghost use Rattle.std.specs.Result.{result_err};
ghost use Rattle.fault.specs.Checks.{first_fault};
ghost use Rattle.units.specs.Directory.{covered, is_width, width_of, for_each, width_checks};

use crate::samples::Width;
use fault::{Cause, Fault, demand};

pub(crate) const MOST_TABLES: usize = 64;

// A table: the bits of a sample, and where in the unit's list it starts and how long it is, in bytes or in words.
// The bits stay a number: a directory with bits that no sample has is taken too, and its refusal is the answer.
#[derive(Clone, Copy, Debug)]
pub struct Stretch {
    pub width: u32,
    pub start: usize,
    pub length: usize,
}

impl Stretch {
    // Whether it lies in a list of so many entries.
    pub(crate) fn is_inside(&self, entries: usize) -> bool
        ensures { result ≡ nat_le (self.now.start + self.now.length) entries }
    {
        self.start <= entries && self.length <= entries - self.start
    }

    // Whether its samples have one of the seven widths.
    fn has_width(&self) -> bool
        ensures { result ≡ is_width self.now.width }
    {
        Width::try_from(self.width).is_ok()
    }

    // The width of its samples; in a directory that passed the checks it has one of the seven.
    pub(crate) fn sample_width(&self) -> Width
        ensures { result ≡ width_of self.now.width }
    {
        Width::try_from(self.width).unwrap_or(Width::One)
    }

    // What it covers of a list.
    pub(crate) fn part_of<'a, T>(&self, entries: &'a [T]) -> &'a [T]
        requires { self.now.start + self.now.length ≤ length entries.now }
        ensures { result.now ≡ covered self.now entries.now }
    {
        &entries[self.start..self.start + self.length]
    }
}

// Refuses a directory for its first width that is none of the seven.
pub(crate) fn check_widths(directory: &[Stretch]) -> Result<(), Fault>
    ensures { result_err result ≡ first_fault (for_each width_checks 0 directory.now) }
{
    for (table, stretch) in directory.iter().enumerate() {
        demand(stretch.has_width(), Fault::new(Cause::UnitShape, table))?;
    }
    Ok(())
}
