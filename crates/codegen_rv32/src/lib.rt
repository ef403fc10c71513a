//! Writing machine code: the pieces of a kernel.
//!
//! Crate `kernel_code` says which lines of code each part of a kernel has, and that they run as the
//! kernel means; here they are written.
#![tactic(auto)]

mod fills;
mod lengths;
mod parts;
mod pieces;
mod places;
mod structure;
mod targets;

pub use pieces::generate;
