// Opening a set.
ghost use Rattle.std.specs.Prelude.{◌≡◌, length, IfOk, IfErr};
ghost use Rattle.set.specs.Lent.{lengths, lists_of};
ghost use Rattle.set.specs.Model.{entries};
ghost use Rattle.set.specs.State.{model_of, lists_in, Untouched, Opened};
ghost use Rattle.set.specs.Steps.{opened, IsRefused};

use super::Set;
use crate::filled::Filled;
use crate::memory::Memory;
use fault::Fault;
use function::{Instruction, Record};

impl<'a> Set<'a> {
    // A set without functions, all entries free.
    pub fn over(memory: Memory<'a>) -> Set<'a>
        ensures after { model_of result ≡ opened (lengths memory.entry) }
        ensures lists { Untouched (lists_of memory.entry) (lists_in result) }
    {
        let Memory {
            records,
            numbers,
            instructions,
        } = memory;
        Set {
            records: Filled::over(records),
            numbers: Filled::over(numbers),
            instructions: Filled::over(instructions),
        }
    }

    // The same over the lists themselves; refuses one that is empty or too long.
    pub fn open(
        records: &'a mut [Record],
        numbers: &'a mut [f32],
        instructions: &'a mut [Instruction],
    ) -> Result<Set<'a>, Fault>
        ensures ok { IfOk result (λ s. Opened s records.old numbers.old instructions.old) }
        ensures err { IfErr result (IsRefused (entries (length records.old) (length numbers.old) (length instructions.old))) }
    {
        Memory::open(records, numbers, instructions).map(Set::over)
    }
}
