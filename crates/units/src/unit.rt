// A sample unit over lent memory, whatever its entries are.
ghost use Rattle.std.specs.Prelude.{◌≡◌, ⊤, true, [], All, None, Some, MatchOption, OnOk, IfOk, if◌then◌else◌};
ghost use Rattle.std.specs.Result.{result_err};
ghost use Rattle.std.specs.List.{slice_get};
ghost use Rattle.fault.specs.Checks.{first_fault, passes};
ghost use Rattle.units.specs.Directory.{for_each, entry_checks, unit_checks, tables_of, SamplesFit};
ghost use Rattle.units.specs.Samples.{WellFormed};

use crate::directory::{MOST_TABLES, Stretch, check_widths};
use crate::entry::Entry;
use crate::samples::{Samples, Width};
use fault::{Cause, Fault, demand};
use std::alloc::AllocError;

// A list of entries, and the directory of the tables that lie in it. No Model shows the tables: a Copy struct with a
// lifetime can have none.
#[derive(Debug)]
pub struct SampleUnit<'a, E: Entry> {
    entries: &'a [E],
    directory: &'a [Stretch],
    ghost ok: { passes (unit_checks E.can_hold entries.now directory.now) ≡ true },
    ghost sound: { WellFormed (tables_of E.samples entries.now directory.now) },
}

// By hand, since a derive over a ghost field asks for a struct with no type parameter.
impl<E: Entry> Copy for SampleUnit<'_, E> {}

impl<E: Entry> Clone for SampleUnit<'_, E> {
    ghost is_clone = { λ unit clone. clone ≡ unit };

    ghost is_infallible = { λ _. ⊤ };

    fn clone(&self) -> Result<Self, AllocError> {
        Ok(*self)
    }
}

impl<'a, E: Entry> SampleUnit<'a, E> {
    // Why no unit can be made of them, if so.
    pub fn check(entries: &[E], directory: &[Stretch]) -> Result<(), Fault>
        ensures fault { result_err result ≡ first_fault (unit_checks E.can_hold entries.now directory.now) }
        ensures sound { OnOk result (WellFormed (tables_of E.samples entries.now directory.now)) }
    {
        demand(
            directory.len() <= MOST_TABLES,
            Fault::new(Cause::UnitShape, 0),
        )?;
        check_widths(directory)?;
        check_tables(entries, directory)
    }

    // The unit, or why none can be made of them.
    pub fn over(entries: &'a [E], directory: &'a [Stretch]) -> Result<SampleUnit<'a, E>, Fault>
        ensures fault { result_err result ≡ first_fault (unit_checks E.can_hold entries.now directory.now) }
        ensures tables { IfOk result (λ unit. tables_of E.samples unit.entries.now unit.directory.now ≡ tables_of E.samples entries.now directory.now) }
    {
        SampleUnit::check(entries, directory)?;
        Ok(SampleUnit { entries, directory })
    }

    // The unit, or one without tables where the check fails. It cannot fail; `over` is the form with the fault.
    pub fn new(entries: &'a [E], directory: &'a [Stretch]) -> SampleUnit<'a, E>
        ensures { tables_of E.samples result.entries.now result.directory.now ≡ (if passes (unit_checks E.can_hold entries.now directory.now) then tables_of E.samples entries.now directory.now else []) }
    {
        SampleUnit::over(entries, directory).unwrap_or(SampleUnit {
            entries,
            directory: &directory[..0],
        })
    }

    // The entries of the table and its width, if there is one. Inlined, as sample is: a loop over one table then finds both once.
    #[inline(always)]
    fn table_at(&self, table: usize) -> Option<(&'a [E], Width)>
        ensures { MatchOption result (None ≡ slice_get (tables_of E.samples self.now.entries.now self.now.directory.now) table) (λ t. Some (record { width = t.1; samples = E.samples t.1 t.0.now }) ≡ slice_get (tables_of E.samples self.now.entries.now self.now.directory.now) table) }
    {
        let stretch = self.directory.get(table)?;
        Some((stretch.part_of(self.entries), stretch.sample_width()))
    }
}

impl<E: Entry> Samples for SampleUnit<'_, E> {
    ghost tables = { λ unit. tables_of E.samples unit.entries.now unit.directory.now };

    ghost sound = { λ unit. unit.sound };

    fn width(&self, table: usize) -> Option<Width> {
        let (_, width) = self.table_at(table)?;
        Some(width)
    }

    fn count(&self, table: usize) -> Option<usize> {
        let (entries, width) = self.table_at(table)?;
        Some(E::count(entries, width))
    }

    #[inline(always)]
    fn sample(&self, table: usize, index: usize) -> Option<u32> {
        let (entries, width) = self.table_at(table)?;
        E::sample(entries, width, index)
    }
}

// Refuses tables for the first fault of one, table by table.
fn check_tables<E: Entry>(entries: &[E], directory: &[Stretch]) -> Result<(), Fault>
    ensures fault { result_err result ≡ first_fault (for_each (entry_checks E.can_hold entries.now) 0 directory.now) }
    ensures fit { OnOk result (All (SamplesFit E.samples entries.now) directory.now) }
{
    for (table, stretch) in directory.iter().enumerate() {
        check_table(entries, table, *stretch)?;
    }
    Ok(())
}

fn check_table<E: Entry>(entries: &[E], table: usize, stretch: Stretch) -> Result<(), Fault>
    ensures fault { result_err result ≡ first_fault (entry_checks E.can_hold entries.now table stretch) }
    ensures fit { OnOk result (SamplesFit E.samples entries.now stretch) }
{
    demand(
        stretch.is_inside(entries.len()),
        Fault::new(Cause::UnitStretch, table),
    )?;
    // A match, which reads plainer than map_or(Ok(()), ..).
    match E::first_misfit(stretch.part_of(entries), stretch.sample_width()) {
        None => Ok(()),
        Some(i) => Err(Fault {
            cause: Cause::UnitStretch,
            index: table,
            place: stretch.start + i,
        }),
    }
}
