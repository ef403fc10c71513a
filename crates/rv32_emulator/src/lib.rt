//! Runs of objects on the machine, under a budget of instructions.
//!
//! The contract that the layers above use: [`run`] answers as the run that `rv_semantics` defines,
//! and leaves its transcript with the recorder and its output behind what was put before.
//! [`parse_input`] reads the numbers of its input from a file.
#![tactic(auto)]

mod emulator;
mod input;
mod input_file;
mod turn;

pub use emulator::{Ending, RunFault, run};
pub use input_file::{InputFault, parse_input};
