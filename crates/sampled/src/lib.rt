// Sampled functions: what a caller gives, what loading checks, and what a loaded one computes.
#![tactic(auto)]

mod corners;
mod dimension;
mod evaluate;
mod grid;
mod sizes;
mod sums;
mod type0;

pub use type0::{Corner, Sampled, Type0};
