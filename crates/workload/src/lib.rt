//! The workload: for each number from 1 to 180 a source with as many decisions, and inputs to run it on.
//!
//! Numbers come from a linear congruential generator, so that each source can be made anew anywhere. The
//! command that compiles, runs and covers it is to come.
#![tactic(auto)]

mod inputs;
mod source;

pub use inputs::{Triple, inputs_of};
pub use source::source_of;
