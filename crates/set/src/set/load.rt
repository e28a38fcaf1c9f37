// Loading: all checks first, then the numbers, and last the record, which makes the function visible.
ghost use Rattle.std.specs.Prelude.{◌≡◌, None};
ghost use Rattle.fault.specs.Checks.{first_fault};
ghost use Rattle.function.specs.Exponential.{exponential_of};
ghost use Rattle.set.specs.State.{model_of, Stored};
ghost use Rattle.set.specs.Steps.{function_checks, load_step, needs};

use super::Set;
use crate::entries::Entries;
use crate::filled::Lay;
use fault::{Cause, Fault, demand};
use function::Exponential;

impl Set<'_> {
    // The entries that are free.
    fn free(&self) -> Entries
        ensures { result ≡ (model_of self.now).free }
    {
        Entries {
            functions: self.records.free(),
            numbers: self.numbers.free(),
            instructions: self.instructions.free(),
        }
    }

    // Loads a function that passed the checks of its kind behind the others, and answers its index.
    fn load<G: Lay>(&mut self, given: &G, needed: Entries) -> Result<usize, Fault>
        requires needed { needed ≡ needs (G.function given.now) }
        requires checked { first_fault (function_checks (model_of self.old).functions (G.function given.now)) ≡ None }
        ensures reply { result ≡ (load_step (G.function given.now) (model_of self.old)).reply }
        ensures after { model_of self.new ≡ (load_step (G.function given.now) (model_of self.old)).after }
        ensures lists { Stored (G.function given.now) self.old self.new result }
    {
        let index = self.records.len();
        demand(needed.fit_in(self.free()), Fault::new(Cause::Room, index))?;
        let record = given.lay(&mut self.numbers);
        self.records.push(record);
        Ok(index)
    }

    // Loads an exponential function behind the others and answers its index.
    pub fn load_exponential(&mut self, given: &Exponential) -> Result<usize, Fault>
        ensures reply { result ≡ (load_step (exponential_of given.now) (model_of self.old)).reply }
        ensures after { model_of self.new ≡ (load_step (exponential_of given.now) (model_of self.old)).after }
        ensures lists { Stored (exponential_of given.now) self.old self.new result }
    {
        let numbers = given.check(self.records.len())?;
        let needed = Entries {
            functions: 1,
            numbers,
            instructions: 0,
        };
        self.load(given, needed)
    }
}
