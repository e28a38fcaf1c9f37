// Stitched functions: what a caller gives, what loading checks, and which part an input goes to.
#![tactic(auto)]

mod earlier;
mod type3;

pub use earlier::{Earlier, Known};
pub use type3::{Chosen, Needs, Stitched, Type3, find_interval};
