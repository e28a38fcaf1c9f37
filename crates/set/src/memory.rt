// The lists that a caller lends to a set.
ghost use Rattle.std.specs.Prelude.{◌≡◌, true, length, IfOk, OnOk, IfErr};
ghost use Rattle.set.specs.Lent.{Lent};
ghost use Rattle.set.specs.Model.{entries};
ghost use Rattle.set.specs.Steps.{opens, IsRefused};

use crate::entries::Entries;
use fault::{Cause, Fault, demand};
use function::{Instruction, Record};

// The longest lists that a set is opened over.
pub const MAX_FUNCTIONS: usize = 256;

pub const MAX_NUMBERS: usize = 16_384;

pub const MAX_INSTRUCTIONS: usize = 4_096;

// Lists of lengths that a set can be opened over.
#[derive(Drop)]
pub struct Memory<'a> {
    pub(crate) records: &'a mut [Record],
    pub(crate) numbers: &'a mut [f32],
    pub(crate) instructions: &'a mut [Instruction],
}

// Whether a set can be opened over lists of these lengths.
fn lengths_fit(wanted: Entries) -> bool
    ensures { result ≡ opens wanted }
{
    (1..=MAX_FUNCTIONS).contains(&wanted.functions)
        && (1..=MAX_NUMBERS).contains(&wanted.numbers)
        && (1..=MAX_INSTRUCTIONS).contains(&wanted.instructions)
}

// Refuses lists that are empty or too long, by their lengths alone.
pub fn check_lengths(wanted: Entries) -> Result<(), Fault>
    ensures ok { OnOk result (opens wanted ≡ true) }
    ensures err { IfErr result (IsRefused wanted) }
{
    demand(lengths_fit(wanted), Fault::new(Cause::SetList, 0))
}

impl<'a> Memory<'a> {
    // Takes the lists as they are; refuses one that is empty or too long. Three lists, since a caller lends three:
    // the struct of them is what this makes.
    pub fn open(
        records: &'a mut [Record],
        numbers: &'a mut [f32],
        instructions: &'a mut [Instruction],
    ) -> Result<Memory<'a>, Fault>
        ensures ok { IfOk result (λ m. Lent m records.old numbers.old instructions.old) }
        ensures err { IfErr result (IsRefused (entries (length records.old) (length numbers.old) (length instructions.old))) }
    {
        check_lengths(Entries {
            functions: records.len(),
            numbers: numbers.len(),
            instructions: instructions.len(),
        })?;
        Ok(Memory {
            records,
            numbers,
            instructions,
        })
    }
}
