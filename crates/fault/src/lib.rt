// Why a call is refused: one fault type for every layer.
#![tactic(auto)]

mod cause;
mod layer;
mod refusing;

pub use cause::{Cause, Fault};
pub use layer::Layer;
pub use refusing::demand;
