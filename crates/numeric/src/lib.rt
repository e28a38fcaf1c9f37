// Float arithmetic that every kind of function shares: clamping to Domain and Range pairs,
// interpolation, cutting to integers, and lists of numbers.
#![tactic(auto)]

mod between;
mod lists;
mod numbers;
mod pair;
mod whole;

pub use between::{clamp, clamp_output, interpolate};
pub use lists::{all_finite, pair_at, pair_count, pairs_rise, put, put_each};
pub use numbers::Numbers;
pub use pair::Pair;
pub use whole::Whole;
