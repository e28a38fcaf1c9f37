// The kinds of functions: what a caller gives, what loading checks, how a function is stored, and what it computes.
#![tactic(auto)]

mod clamper;
mod counts;
mod limits;
mod record;
mod type2;

pub use clamper::{clamp_first, clamp_front};
pub use counts::Counts;
pub use limits::FULL_LIST;
pub use record::{Instruction, Kind, Record};
pub use type2::{Exponential, MAX_OUTPUTS, Type2};
