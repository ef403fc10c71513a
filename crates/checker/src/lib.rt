//! Programs of the whole language under its rules (Ada RM 2012, 10).
//!
//! The contract that the layers above use: [`check`] answers the typed program of the rules, or else the
//! first of the rules' steps that refuses the units, and the rules' own place; that each refusal has a
//! reason there is [`a_refusal_is_of_a_broken_rule`]. `walked_program/specs/Checking.antt` says what a
//! refusal is, and `program_weights` what the limits ask of the units and what the typed program's composite
//! types weigh.
//!
//! The steps are those of the rules: [`judged`] walks over all units, once for the rules on names and once
//! for those on types, and leaves all that it has declared and found (`walked_program/specs/Judging.antt`);
//! the demands on static values, the counted limits and the typed program stand on what the second walk has
//! left.
#![tactic(auto)]

mod steps;
mod whole;

pub use steps::judged;
pub use walked_program::{CheckFault, WholeWalk, a_refusal_is_of_a_broken_rule, discard_program};
pub use whole::check;
