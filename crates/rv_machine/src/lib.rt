//! The machine that executes an object's text, one instruction at a time.
//!
//! A `Machine` holds the program counter, 32 registers and 32 MiB of memory. It decodes the words of
//! its text once, when it is made, and takes no memory after that: room for the 32 MiB is taken then,
//! and what was never stored to is never written.
//!
//! The contract that the layers above use: [`Machine::step`] and [`Machine::give`] are `step` and
//! `given` of the crate `rv_semantics`, and a new machine is at its `start`. `image_of` and
//! `state_of` show a machine as that crate's image and state.
#![tactic(auto)]

mod compute;
mod late;
mod machine;
mod memory;
mod text;
mod words;

pub use machine::Machine;
pub use rv_semantics::{Seen, Stepped, TrapWhy};
