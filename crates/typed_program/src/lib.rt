//! The typed program that a walk over all units has found (Ada RM 2012, 10.1, 11.1, 12.3).
//!
//! The contract that the layers above use: [`program_of`] is the program of the rules: its subprograms,
//! objects and constants in the order of the text, its instances in the order of their places, each with
//! the values of its generic's constants, and its exceptions as obligations list them. [`entries`] is what
//! the limits ask of the units, [`body_entries`] what they ask of the bodies of subprograms, and
//! [`type_texts`] the generics in whose texts composite types stand.
#![tactic(auto)]

mod bodies;
mod exceptions;
mod instances;
mod program;
mod texts;
mod unit_entries;

pub use bodies::body_entries;
pub use program::{discard_program, program_of};
pub use program_walk::Walk;
pub use texts::type_texts;
pub use unit_entries::entries;
