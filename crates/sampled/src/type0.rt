// Sampled functions (type 0).
ghost use Rattle.std.specs.Prelude.{◌≡◌, ◌&&◌, length, is_some};
ghost use Rattle.fault.specs.Checks.{first_fault};
ghost use Rattle.numeric.specs.Interval.{both_finite, rises};
ghost use Rattle.numeric.specs.Lists.{every, flat, Lays};
ghost use Rattle.units.specs.Samples.{width_in};
ghost use Rattle.function.specs.Numbers.{judged};
ghost use Rattle.sampled.specs.Sampled.{encode_of, decode_of, grid_counts, grid_finite, grid_agrees, given_checks, given_entries, size_numbers};

use crate::sizes::{grid_finite, last_point, sizes_fit};
use fault::{Cause, Fault, demand};
use function::MAX_OUTPUTS;
use numeric::{Whole, all_finite, pairs_rise, put, put_each};
use units::Samples;

pub(crate) const MAX_INPUTS: usize = 4;

// What a caller gives of a sampled function: Encode and Decode where they are not the whole grid and the Range.
// Lists of their own, as in a file, where one may be longer than another: check refuses that. domain and range are fields
// of each kind, as in a file's dictionary: a struct of the two is no plainer for callers.
#[derive(Clone, Copy, Debug, PartialEq)]
pub struct Sampled<'c> {
    pub domain: &'c [(f32, f32)],
    pub sizes: &'c [u32],
    pub range: &'c [(f32, f32)],
    pub encode: Option<&'c [(f32, f32)]>,
    pub decode: Option<&'c [(f32, f32)]>,
    pub table: usize,
}

impl<'c> Sampled<'c> {
    fn encode_count(&self) -> usize
        ensures { result ≡ length (encode_of self.now) }
    {
        self.encode.map_or(self.sizes.len(), |pairs| pairs.len())
    }

    // A match: two different calls, which map_or_else says no plainer.
    fn encode_finite(&self) -> bool
        ensures { result ≡ every both_finite (encode_of self.now) }
    {
        match self.encode {
            Some(pairs) => all_finite(pairs),
            None => grid_finite(self.sizes),
        }
    }

    // Decode, or the Range where it is absent.
    fn decode_pairs(&self) -> &'c [(f32, f32)]
        ensures { result.now ≡ decode_of self.now }
    {
        self.decode.unwrap_or(self.range)
    }

    fn counts_fit(&self) -> bool
        ensures { result ≡ grid_counts self.now.domain.now self.now.sizes.now self.now.range.now }
    {
        (1..=MAX_INPUTS).contains(&self.domain.len())
            && (1..=MAX_INPUTS).contains(&self.sizes.len())
            && (1..=MAX_OUTPUTS).contains(&self.range.len())
    }

    fn all_finite(&self) -> bool
        ensures { result ≡ grid_finite self.now.domain.now self.now.range.now (encode_of self.now) (decode_of self.now) }
    {
        all_finite(self.domain)
            && all_finite(self.range)
            && self.encode_finite()
            && all_finite(self.decode_pairs())
    }

    fn counts_agree(&self) -> bool
        ensures { result ≡ grid_agrees self.now.domain.now self.now.range.now self.now.sizes.now (encode_of self.now) (decode_of self.now) }
    {
        self.sizes.len() == self.domain.len()
            && self.encode_count() == self.domain.len()
            && self.decode_pairs().len() == self.range.len()
    }

    // The number entries that the function takes, or the fault for which it cannot be loaded at the index.
    pub fn check(&self, index: usize) -> Result<usize, Fault>
        ensures { result ≡ judged (first_fault (given_checks index self.now)) (given_entries self.now) }
    {
        // Each kind begins with these four: a function for all would take four flags in a row, or a trait with as many methods.
        demand(self.counts_fit(), Fault::new(Cause::Count, index))?;
        demand(self.all_finite(), Fault::new(Cause::NotFinite, index))?;
        let rise = pairs_rise(self.domain) && pairs_rise(self.range);
        demand(rise, Fault::new(Cause::UpsideDown, index))?;
        demand(
            self.counts_agree(),
            Fault::new(Cause::CountsDisagree, index),
        )?;
        demand(
            sizes_fit(self.sizes, self.range.len()),
            Fault::new(Cause::Size, index),
        )?;
        let shared = 2 * self.domain.len() + 2 * self.range.len();
        let own = self.sizes.len() + 2 * self.encode_count() + 2 * self.decode_pairs().len();
        Ok(shared + own)
    }

    pub fn has_table<S: Samples>(&self, samples: &S) -> bool
        ensures { result ≡ is_some (width_in (S.tables samples.now) self.now.table) }
    {
        samples.width(self.table).is_some()
    }

    // Writes the Sizes into the list from `at` on, and says which place lies behind them. Where they do not fit, nothing is
    // written and the place is `at`: the contract fixes that answer, and no caller has a refusal to pass on.
    pub fn put_sizes(&self, list: &mut [f32], at: usize) -> usize
        ensures { Lays list.old at (size_numbers self.now.sizes.now) list.new result }
    {
        put_each(list, at, self.sizes, |size| size.nearest())
    }

    // The same for the Encode pairs, given or by default: two different calls, which map_or_else says no plainer.
    pub fn put_encode(&self, list: &mut [f32], at: usize) -> usize
        ensures { Lays list.old at (flat (encode_of self.now)) list.new result }
    {
        match self.encode {
            Some(given) => put(list, at, given),
            None => put_each(list, at, self.sizes, |size| (0.0, last_point(size))),
        }
    }

    // The same for the Decode pairs.
    pub fn put_decode(&self, list: &mut [f32], at: usize) -> usize
        ensures { Lays list.old at (flat (decode_of self.now)) list.new result }
    {
        let pairs = self.decode_pairs();
        put(list, at, pairs)
    }
}

// A grid point around the inputs: its weight, and the place of its first sample in the table.
#[derive(Clone, Copy, Debug, Default, PartialEq)]
pub struct Corner {
    pub weight: f32,
    pub offset: usize,
}

// A loaded sampled function: its parts of the number list, pairs number after number, since a set has one list of numbers.
#[derive(Clone, Copy, Debug, PartialEq)]
pub struct Type0<'a> {
    pub domain: &'a [f32],
    pub range: &'a [f32],
    pub sizes: &'a [f32],
    pub encode: &'a [f32],
    pub decode: &'a [f32],
    pub table: usize,
}
