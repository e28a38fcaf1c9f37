// A job run to its record: each call's line, and below it what the set or a unit answered.
#![tactic(auto)]

mod calls;
mod replies;
mod run;

pub use run::{Record, run_job};
