// Numbers as words of a job and of its record.
#![tactic(auto)]

mod number;

pub use number::{Bits, Shown, float};
