//! Machine code that stands at an address, and what a run does there. The definitions stand in
//! `specs/`: `HasAt image address is` says that the instructions `is` stand in an image's text at an
//! address, and `Leads image s input entries output s' input'` that a run from the state `s`, with
//! `input` unread, comes to the state `s'` with `input'` unread, after the executed instructions
//! `entries` and the words `output`, and then goes on from there. As many instructions are executed
//! as there are entries. The functions here do nothing: each carries laws of the definitions as its
//! contract.
//!
//! The contract that the layers above use: where an instruction stands it leads to the state that
//! the law of its kind says, as [`registers_are_written`], and [`stretches_compose`].
#![tactic(auto)]

mod code;
mod environment;
mod instructions;
mod reach;
mod stretches;

pub use code::{a_text_stands, an_instruction_is_executed, code_stands_in_parts};
pub use environment::the_environment_is_called;
pub use instructions::{branches_go, jumps_go, memory_is_read_and_written, registers_are_written};
pub use reach::{addresses_are_sums, branches_and_jumps_land};
pub use stretches::{a_loop_counts, straight_code_goes, stretches_compose};
