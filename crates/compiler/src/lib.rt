//! From sources to objects.
//!
//! The contract that the layers above use: [`compile`] gives the object of the program that sources
//! are, or the first fault for which they are refused, and [`legal_sources_are_not_refused`] says
//! that it never refuses a legal program for a fault. The object passes the checks of objects, names
//! the sources, and does what the program means, on every input: no run traps; where a run ends, the
//! program's execution ends, with the same ending, output and events, and the transcript is
//! disciplined; and runs end in time. Definitions and laws stand in `program_objects`.
#![tactic(auto)]

mod checking;
mod compiling;

pub use compiling::compile;
pub use program_objects::{Compiled, SourceFault, Why, legal_sources_are_not_refused};
