//! The machine that objects run on, as definitions: RV32I and its M extension with 32 MiB of memory
//! and three environment calls, after the RISC-V unprivileged manual.
//!
//! A `State` is what an instruction can change: the program counter, the registers and the memory.
//! `step image state` is what one step comes to, and the state after it. `runs image budget state
//! input` is a whole run: what a recorder sees of each executed instruction, in order of time, the
//! words that were put, and how the run ended. All of it computes, and stands in `specs/`.
//!
//! The contract that the layers above use is `step`, which the machine equals and on which proofs
//! about compiled code stand. [`a_run_has_one_ending`] says that a run has at most one ending, and
//! that one under a smaller budget is the beginning of one under a larger budget.
#![tactic(auto)]

mod laws;
mod layout;
mod stepped;

pub use laws::{a_past_lists_the_run, a_run_has_one_ending};
pub use layout::{DATA_START, MEMORY_BYTES, TEXT_START, place_of};
pub use stepped::{Seen, Stepped, TrapWhy};
