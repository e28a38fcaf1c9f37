// Evaluating a loaded function.
ghost use Rattle.std.specs.Prelude.{◌≡◌, ◌≤◌, true, length, Some, IfOk, IfErr, slice_get};
ghost use Rattle.fault.specs.Checks.{fault};
ghost use Rattle.fault.specs.declared.cause.Cause.TheVariants.{NoFunction};
ghost use Rattle.function.specs.Exponential.{stored};
ghost use Rattle.set.specs.State.{model_of, Fitting};
ghost use Rattle.set.specs.Steps.{answer, reply_of, written};
ghost use Rattle.set.specs.View.{function_at, placed};

use super::Set;
use fault::{Cause, Fault, demand};
use function::{Counts, FULL_LIST, Kind, Record, Type2};
use units::Arithmetic;

impl Set<'_> {
    // The record of the function at the index.
    fn record(&self, index: usize) -> Result<Record, Fault>
        ensures ok { IfOk result (λ r. slice_get self.now.records.front index ≡ Some r) }
        ensures err { IfErr result (λ e. (length self.now.records.front ≤ index) × (e ≡ fault NoFunction index)) }
    {
        self.records
            .as_slice()
            .get(index)
            .copied()
            .ok_or(Fault::new(Cause::NoFunction, index))
    }

    // That record, where the function is called with its number of inputs and a full list.
    fn fitting(&self, index: usize, inputs: usize, room: usize) -> Result<Record, Fault>
        ensures { Fitting self.now index inputs room result }
    {
        let record = self.record(index)?;
        demand(
            inputs == (record.range - record.domain) / 2,
            Fault::new(Cause::InputCount, index),
        )?;
        demand(room >= FULL_LIST, Fault::new(Cause::OutputList, index))?;
        Ok(record)
    }

    // The parts of the number list that an exponential function has.
    #[tactic(auto, using(crate::proofs::Reading::exponential_rising))]
    fn type2(&self, item: Record) -> Type2<'_>
        requires { placed (length self.now.numbers.front) item ≡ true }
        ensures { stored result ≡ function_at self.now.numbers.front item }
    {
        let Record {
            domain,
            range,
            own,
            kind: Kind::Exponential { c1, n },
            ..
        } = item;
        let numbers = self.numbers.as_slice();
        Type2 {
            domain: &numbers[domain..range],
            range: &numbers[range..own],
            c0: &numbers[own..c1],
            c1: &numbers[c1..n],
            n: numbers[n],
        }
    }

    // Writes the function's outputs for the inputs to the front of the output list, and answers the counts.
    // The unit may change as it is asked, but not in what it means.
    pub fn evaluate<A: Arithmetic>(
        &self,
        unit: &mut A,
        index: usize,
        inputs: &[f32],
        outputs: &mut [f32],
    ) -> Result<Counts, Fault>
        ensures reply { result ≡ reply_of (answer (model_of self.now).functions (A.meaning unit.old) index inputs.now (length outputs.old)) }
        ensures wrote { outputs.new ≡ written (answer (model_of self.now).functions (A.meaning unit.old) index inputs.now (length outputs.old)) outputs.old }
        ensures keeps { A.meaning unit.new ≡ A.meaning unit.old }
    {
        let record = self.fitting(index, inputs.len(), outputs.len())?;
        Ok(self.type2(record).eval(unit, inputs, outputs))
    }
}
