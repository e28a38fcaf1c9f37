// A set: the lent lists with how much of them is used, and what that always is. No Model: clauses speak of the
// functions and of the lent lists, so its view would be the fields again.
mod evaluate;
mod load;
mod open;

ghost use Rattle.std.specs.Prelude.{◌≡◌, true, [], length};
ghost use Rattle.std.specs.List.{list_all};
ghost use Rattle.set.specs.View.{functions_in, placed};
ghost use Rattle.set.specs.Steps.{admitted};

use crate::filled::Filled;
use function::{Instruction, Record};

// What is used of the three lists is that of the loaded functions, in their order.
#[derive(Drop)]
pub struct Set<'a> {
    records: Filled<'a, Record>,
    numbers: Filled<'a, f32>,
    instructions: Filled<'a, Instruction>,
    ghost inside: { list_all (placed (length numbers.front)) records.front ≡ true },
    ghost lawful: { admitted [] (functions_in records.front numbers.front) ≡ true },
}
