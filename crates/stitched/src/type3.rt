// Stitched functions (type 3).
ghost use Rattle.std.specs.Prelude.{◌≡◌, ◌+◌, ◌-◌, ◌<◌, ◌≤◌, true, ◌&&◌, T, map, length, nat_le, slice_index_or};
ghost use Rattle.std.specs.Float.{nan, binary32};
ghost use Rattle.std.specs.Float.Ieee.{fits};
ghost use Rattle.fault.specs.Checks.{first_fault};
ghost use Rattle.numeric.specs.Interval.{rises, within};
ghost use Rattle.numeric.specs.Lists.{every, pairs_of, Lays};
ghost use Rattle.numeric.specs.Whole.{cut_unsigned};
ghost use Rattle.function.specs.Limits.{from_one_to, most_parts};
ghost use Rattle.function.specs.Numbers.{judged};
ghost use Rattle.stitched.specs.Stitched.{bounds_rise, counts_fit, all_finite, counts_agree, first_pair, given_checks, given_needs, given_numbers, index_number, full_bounds, pick, part_input, stored_choice, OnlyPart, OnlyStretch};

use crate::earlier::{Earlier, deepest, parts_loaded};
use fault::{Cause, Fault, demand};
use function::{FULL_LIST, clamp_first};
use numeric::{Whole, all_finite, interpolate, pair_at, pairs_rise, put, put_each};
use std::num::nearest_u64_to_f32;

// The most parts of a stitched function.
const MAX_PARTS: usize = 32;

// How deep stitched functions nest.
const MAX_DEPTH: usize = 8;

// What stands for a pair that is not there. No Option: choosing cannot fail, and its contract fixes what comes of this.
const NO_PAIR: (f32, f32) = (f32::NAN, f32::NAN);

// By how much the outer stretches reach past the Domain.
const HAIR: f32 = 0.0001;

// What a caller gives of a stitched function: the indices of its parts, by which a set names functions, the Bounds between
// them, and an Encode pair for each.
// Lists of their own, as in a file, where one may be longer than another: check refuses that. Domain and Range are fields of
// each kind, as in a file's dictionary: a struct of the two is no plainer for callers.
#[derive(Clone, Copy, Debug, PartialEq)]
pub struct Stitched<'c> {
    pub domain: &'c [(f32, f32)],
    pub range: &'c [(f32, f32)],
    pub parts: &'c [usize],
    pub bounds: &'c [f32],
    pub encode: &'c [(f32, f32)],
}

// What loading a stitched function takes: so many number entries. It is then as deep as this.
#[derive(Clone, Copy, Debug, PartialEq, Eq)]
pub struct Needs {
    pub numbers: usize,
    pub depth: usize,
}

impl Stitched<'_> {
    // One Domain pair, and every other count within its limits.
    fn counts_fit(&self) -> bool
        ensures { result ≡ counts_fit self.now.domain.now self.now.range.now self.now.parts.now }
    {
        self.domain.len() == 1
            && (1..=MAX_PARTS).contains(&self.parts.len())
            // No more Range pairs than outputs that any list holds.
            && self.range.len() <= FULL_LIST
    }

    fn all_finite(&self) -> bool
        ensures { result ≡ all_finite self.now.domain.now self.now.range.now self.now.bounds.now self.now.encode.now }
    {
        all_finite(self.domain)
            && all_finite(self.range)
            && all_finite(self.bounds)
            && all_finite(self.encode)
    }

    // One bound between each two parts, and one Encode pair for each part.
    fn counts_agree(&self) -> bool
        ensures { result ≡ counts_agree self.now.parts.now self.now.bounds.now self.now.encode.now }
    {
        let parts = self.parts.len();
        self.bounds.len() == parts.saturating_sub(1) && self.encode.len() == parts
    }

    // Whether the Bounds lie in the Domain and do not fall.
    fn bounds_rise(&self) -> bool
        ensures { result ≡ bounds_rise (first_pair self.now.domain.now).0 (first_pair self.now.domain.now).1 self.now.bounds.now }
    {
        let (low, high) = self.domain.first().copied().unwrap_or(NO_PAIR);
        self.bounds.is_sorted()
            && self
                .bounds
                .iter()
                .all(|bound| low <= *bound && *bound <= high)
    }

    // What the function needs, or the fault for which it cannot be loaded after the earlier ones.
    #[tactic(auto, using(crate::proofs::Storing::own_length))]
    pub fn check<E: Earlier>(&self, earlier: &E) -> Result<Needs, Fault>
        ensures { result ≡ judged (first_fault (given_checks (E.known earlier.now) self.now)) (given_needs (E.known earlier.now) self.now) }
    {
        let index = earlier.count();
        let depth = deepest(earlier, self.parts);
        // Each kind begins with these four: a function for all would take four flags in a row, or a trait with as many methods.
        demand(self.counts_fit(), Fault::new(Cause::Count, index))?;
        demand(self.all_finite(), Fault::new(Cause::NotFinite, index))?;
        let rise = pairs_rise(self.domain) && pairs_rise(self.range);
        demand(rise, Fault::new(Cause::UpsideDown, index))?;
        demand(
            self.counts_agree(),
            Fault::new(Cause::CountsDisagree, index),
        )?;
        demand(
            parts_loaded(earlier, self.parts),
            Fault::new(Cause::Part, index),
        )?;
        demand(self.bounds_rise(), Fault::new(Cause::Bounds, index))?;
        demand(depth < MAX_DEPTH, Fault::new(Cause::Depth, index))?;
        Ok(Needs {
            numbers: 2 * self.domain.len() + 2 * self.range.len() + self.own_entries(),
            depth: depth + 1,
        })
    }

    // The entries that the parts, the Bounds and the Encode pairs take.
    #[tactic(auto, using(crate::proofs::Storing::own_length))]
    fn own_entries(&self) -> usize
        ensures { result ≡ length (given_numbers self.now) }
    {
        self.parts.len() + self.bounds.len() + 2 * self.encode.len()
    }

    // Writes the parts, the Bounds and the Encode pairs into the list from `at` on, and says which place lies behind them.
    // Where they do not all fit, nothing is written and the place is `at`: the contract fixes that answer.
    pub fn lay(&self, numbers: &mut [f32], at: usize) -> usize
        ensures { Lays numbers.old at (given_numbers self.now) numbers.new result }
    {
        let Some(free) = numbers.len().checked_sub(at) else {
            return at;
        };
        if self.own_entries() > free {
            return at;
        }
        let bounds = put_each(
            numbers,
            at,
            self.parts,
            |part| nearest_u64_to_f32(part as u64),
        );
        let encode = put(numbers, bounds, self.bounds);
        put(numbers, encode, self.encode)
    }
}

// A loaded stitched function: its parts of the number list. Pairs lie in them number after number, since a set has one list
// of numbers.
#[derive(Clone, Copy, Debug, PartialEq)]
pub struct Type3<'a> {
    pub domain: &'a [f32],
    pub range: &'a [f32],
    pub parts: &'a [f32],
    pub bounds: &'a [f32],
    pub encode: &'a [f32],
}

// Where an input goes: the stretch that it lies in, the index of the part there, and what the part gets.
#[derive(Clone, Copy, Debug, PartialEq)]
pub struct Chosen {
    pub stretch: usize,
    pub part: usize,
    pub input: f32,
}

impl Type3<'_> {
    // Where the first input goes once it is clamped to the Domain. With a Domain and Bounds that pass the checks no other
    // stretch holds it.
    pub fn choose(&self, inputs: &[f32]) -> Chosen
        ensures chosen { result ≡ stored_choice self.now inputs.now }
        ensures only { OnlyStretch (pairs_of self.now.domain.now) self.now.bounds.now inputs.now result.stretch }
    {
        let domain = pair_or_nan(self.domain, 0);
        let x = clamp_first(self.domain, inputs);
        let stretch = find_interval(self.bounds, x);
        Chosen {
            stretch,
            part: self.part(stretch),
            input: self.encoded(domain, x, stretch),
        }
    }

    // The index of the part in the stretch i; 0 where there is none, and no Option: choosing cannot fail, and its contract
    // fixes this value.
    #[tactic(auto, using(crate::proofs::Choosing::part_none))]
    fn part(&self, i: usize) -> usize
        ensures { result ≡ cut_unsigned 32 (slice_index_or self.now.parts.now i nan) }
    {
        self.parts.get(i).map_or(0, |part| u32::cut(*part) as usize)
    }

    // What the part in the stretch i gets for x.
    fn encoded(&self, domain: (f32, f32), x: f32, i: usize) -> f32
        requires { i ≤ length self.now.bounds.now }
        ensures { result ≡ part_input domain self.now.bounds.now (pairs_of self.now.encode.now) x i }
    {
        let from = (
            full_bound(domain, self.bounds, i),
            full_bound(domain, self.bounds, i + 1),
        );
        let to = pair_or_nan(self.encode, i);
        if from.0 == from.1 {
            to.0
        } else {
            interpolate(x, from, to)
        }
    }
}

// The number i of the Bounds with the ends of the Domain, each a hair wider.
fn full_bound(domain: (f32, f32), bounds: &[f32], i: usize) -> f32
    requires { i ≤ length bounds.now + 1 }
    ensures { result ≡ slice_index_or (full_bounds domain bounds.now) i nan }
{
    match i.checked_sub(1) {
        None => domain.0 - HAIR,
        Some(inner) => bounds.get(inner).copied().unwrap_or(domain.1 + HAIR),
    }
}

// The pair i of those that lie in the list, two NaNs where there is none.
fn pair_or_nan(numbers: &[f32], i: usize) -> (f32, f32)
    ensures pair { result ≡ slice_index_or (pairs_of numbers.now) i (nan, nan) }
    ensures single { T (fits binary32 result.0) × T (fits binary32 result.1) }
{
    pair_at(numbers, i).unwrap_or(NO_PAIR)
}

// The part that x belongs to: the first whose upper bound lies above x, else the last.
pub fn find_interval(bounds: &[f32], x: f32) -> usize
    ensures place { result ≡ pick bounds.now x }
    ensures only { OnlyPart bounds.now x result }
{
    bounds
        .iter()
        .position(|bound| x < *bound)
        .unwrap_or(bounds.len())
}
