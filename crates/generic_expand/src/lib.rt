//! Copies of generics (Ada RM 2012, 12.3): a body for each instance that it stands in, and one for each
//! body that stands in no generic.
//!
//! The contract that the layers above use: [`expand`] gives the copies of a program, or refuses it
//! exactly where it has too many instances or is too large, which [`limits_are_exact`] puts into
//! numbers; [`copies_mean_their_generic`] says what a copy does, and [`copies_are_within_the_nodes`] how
//! large all copies are.
#![tactic(auto)]

mod copies;
mod expansion;
mod fault;
mod laws;

pub use copies::{BodyCopy, Copies};
pub use expansion::expand;
pub use fault::ExpandFault;
pub use laws::{copies_are_within_the_nodes, copies_mean_their_generic, limits_are_exact};
