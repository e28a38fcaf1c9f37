// A set of functions over lent lists: opening it, loading functions into it and evaluating them.
#![tactic(auto)]

mod entries;
mod filled;
mod memory;
mod set;

pub use entries::Entries;
pub use function::FULL_LIST;
pub use memory::{MAX_FUNCTIONS, MAX_INSTRUCTIONS, MAX_NUMBERS, Memory, check_lengths};
pub use set::Set;
