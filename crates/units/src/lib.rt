// The units that a function asks while it works: arithmetic units and sample units.
#![tactic(auto)]

mod arithmetic;
mod directory;
mod entry;
mod house;
mod packed;
mod question;
mod recorded;
mod samples;
mod unit;
mod unpacked;

pub use arithmetic::Arithmetic;
pub use directory::Stretch;
pub use entry::Entry;
pub use house::{House, power, root};
pub use packed::Packed;
pub use question::{Question, UnknownCode};
pub use recorded::{Answered, Recorded};
pub use samples::{Samples, UnknownWidth, Width};
pub use unit::SampleUnit;
pub use unpacked::Unpacked;
