// Exponential functions (type 2).
ghost use Rattle.std.specs.Prelude.{◌≡◌, ◌<◌, ◌&&◌, ◌||◌, length};
ghost use Rattle.fault.specs.Checks.{first_fault};
ghost use Rattle.numeric.specs.Interval.{rises};
ghost use Rattle.numeric.specs.Lists.{every};
ghost use Rattle.function.specs.Exponential.{c0_of, c1_of, exponential_of, given_checks, counts_fit, all_finite, counts_agree, stored, factor, mixed};
ghost use Rattle.function.specs.Answer.{counts_of};
ghost use Rattle.function.specs.Evaluate.{run};
ghost use Rattle.function.specs.Limits.{from_one_to, most_outputs};
ghost use Rattle.function.specs.Numbers.{judged, numbers_of};
ghost use Rattle.function.specs.Outputs.{over};

use crate::clamper::{clamp_first, clamp_front};
use crate::counts::Counts;
use fault::{Cause, Fault, demand};
use numeric::{all_finite, pairs_rise};
use units::{Arithmetic, Question};

// The most coefficients of an exponential function.
pub const MAX_OUTPUTS: usize = 32;

// What a caller gives of an exponential function: no Range pairs where it has no Range, C0 and C1 where they are not 0 and 1.
// Lists of their own, as in a file, where C0 may be longer than C1: check refuses that. Domain and Range are fields of each
// kind, as in a file's dictionary: a struct of the two is no plainer for callers.
#[derive(Clone, Copy, Debug, PartialEq)]
pub struct Exponential<'c> {
    pub domain: &'c [(f32, f32)],
    pub range: &'c [(f32, f32)],
    pub c0: Option<&'c [f32]>,
    pub c1: Option<&'c [f32]>,
    pub n: f32,
}

impl<'c> Exponential<'c> {
    // C0, or 0 where it is absent. Not one function with c1_numbers: the default would be one more argument of each call.
    pub fn c0_numbers(&self) -> &'c [f32]
        ensures { result.now ≡ c0_of self.now }
    {
        self.c0.unwrap_or(&[0.0])
    }

    // C1, or 1 where it is absent.
    pub fn c1_numbers(&self) -> &'c [f32]
        ensures { result.now ≡ c1_of self.now }
    {
        self.c1.unwrap_or(&[1.0])
    }

    // One Domain pair, and every other count within its limits.
    fn counts_fit(&self) -> bool
        ensures { result ≡ counts_fit self.now.domain.now self.now.range.now (c0_of self.now) (c1_of self.now) }
    {
        self.domain.len() == 1
            && self.range.len() <= MAX_OUTPUTS
            && (1..=MAX_OUTPUTS).contains(&self.c0_numbers().len())
            && (1..=MAX_OUTPUTS).contains(&self.c1_numbers().len())
    }

    fn all_finite(&self) -> bool
        ensures { result ≡ all_finite self.now.domain.now self.now.range.now (c0_of self.now) (c1_of self.now) self.now.n }
    {
        all_finite(self.domain)
            && all_finite(self.range)
            && all_finite(self.c0_numbers())
            && all_finite(self.c1_numbers())
            && self.n.is_finite()
    }

    // As many numbers in C0 as in C1, and as many Range pairs or none.
    fn counts_agree(&self) -> bool
        ensures { result ≡ counts_agree self.now.range.now (c0_of self.now) (c1_of self.now) }
    {
        let outputs = self.c0_numbers().len();
        let ranges = self.range.len();
        outputs == self.c1_numbers().len() && (ranges == 0 || ranges == outputs)
    }

    // The number entries that the function takes, or the fault for which it cannot be loaded at the index.
    pub fn check(&self, index: usize) -> Result<usize, Fault>
        ensures { result ≡ judged (first_fault (given_checks index self.now)) (length (numbers_of (exponential_of self.now))) }
    {
        // Each kind begins with these four: a function for all would take four flags in a row, or a trait with as many methods.
        demand(self.counts_fit(), Fault::new(Cause::Count, index))?;
        demand(self.all_finite(), Fault::new(Cause::NotFinite, index))?;
        let rise = pairs_rise(self.domain) && pairs_rise(self.range);
        demand(rise, Fault::new(Cause::UpsideDown, index))?;
        demand(
            self.counts_agree(),
            Fault::new(Cause::CountsDisagree, index),
        )?;
        let coefficients = self.c0_numbers().len() + self.c1_numbers().len();
        Ok(2 * self.domain.len() + 2 * self.range.len() + coefficients + 1)
    }
}

// A loaded exponential function: its parts of the number list. Pairs lie in them number after number, since a set has one
// list of numbers.
#[derive(Clone, Copy, Debug, PartialEq)]
pub struct Type2<'a> {
    pub domain: &'a [f32],
    pub range: &'a [f32],
    pub c0: &'a [f32],
    pub c1: &'a [f32],
    pub n: f32,
}

impl Type2<'_> {
    // Writes the outputs for the first input to the front of the list, as far as it goes.
    pub fn eval<A: Arithmetic>(&self, unit: &mut A, inputs: &[f32], outputs: &mut [f32]) -> Counts
        ensures counts { result ≡ counts_of (run (A.meaning unit.old) (stored self.now) inputs.now) }
        ensures wrote { outputs.new ≡ over (run (A.meaning unit.old) (stored self.now) inputs.now).outputs outputs.old }
        ensures keeps { A.meaning unit.new ≡ A.meaning unit.old }
    {
        let x = clamp_first(self.domain, inputs);
        let factor = factor_of(unit, self.n, x);
        mix(factor, self.c0, self.c1, outputs);
        let count = self.c0.len().min(self.c1.len());
        clamp_front(self.range, count, outputs);
        Counts {
            outputs: count,
            steps: 1,
            drops: 0,
        }
    }
}

// N = 1 hands the input on; else the arithmetic unit raises it.
fn factor_of<A: Arithmetic>(unit: &mut A, n: f32, x: f32) -> f32
    ensures value { result ≡ factor (A.meaning unit.old) n x }
    ensures keeps { A.meaning unit.new ≡ A.meaning unit.old }
{
    if n == 1.0 {
        x
    } else {
        unit.answer(Question::Power, x, n)
    }
}

// Writes C0 + factor * (C1 - C0) to the front of the outputs, as far as all three lists go.
fn mix(factor: f32, c0: &[f32], c1: &[f32], outputs: &mut [f32])
    ensures { outputs.new ≡ over (mixed factor c0.now c1.now) outputs.old }
{
    // By index: what is written through a zipped iter_mut is lost to the proof, and `get` of both lists reads no plainer.
    for (i, (a, b)) in c0.iter().zip(c1).enumerate().take(outputs.len()) {
        outputs[i] = *a + factor * (*b - *a);
    }
}
