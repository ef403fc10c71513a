//! Names and expressions: the walk over them, as the rules have it (Ada RM 2012, 4.1 to 4.6, 6.4).
//!
//! The contract that the layers above use: wherever a [`Scope`] stands, [`judged`], [`denoted`] and
//! [`decision`] answer what the rules say of an expression, of a name and of a statement's decision, in
//! the step of names and in that of types, with the numbers of the decisions in it; where they refuse
//! it, they stand at the rules' own place. Of want of memory nothing is said.
//!
//! Each function of the walk has one shape of contract, `ComesTo` of `specs/Answers.antt`: the rules'
//! answer is what is returned, as it is seen. What grows to the right, as a chain of operators or the
//! parts of a name, is a loop over turns, and no nesting.
#![tactic(auto)]

mod actuals;
mod applied;
mod attributes;
mod circuits;
mod decisions;
mod handing;
mod names;
mod phrases;
mod routines;
mod scope;
mod suffixes;
mod tests;

pub use ada_judged::{Form, Judged, Kind, StaticTree};
pub use circuits::Role;
pub use decisions::Decisions;
pub use names::Denoted;
pub use phrases::{denoted, judged};
pub use scope::{Scope, Step};
pub use tests::decision;
