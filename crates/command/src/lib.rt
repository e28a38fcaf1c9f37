// One line of a job file read into a command.
#![tactic(auto)]

mod exponential;
mod line;
mod misread;
mod number;
mod words;

pub use exponential::ExponentialLine;
pub use line::{Command, read_line};
pub use misread::{LineError, Misread};
