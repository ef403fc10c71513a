//! What runs of an object covered: the set of the runs, of the statements that started, and of the
//! evaluations of decisions that were completed.
//!
//! The contract that the layers above use: [`Coverage::add_trace`] leads from a coverage to its union
//! with what a trace says, or refuses exactly a trace whose history breaks. [`Coverage::add_read`] does
//! the same of a trace that is read in pieces, and makes all checks. What a [`Coverage`] stands for is
//! said by `HasRun` and `Has` of `specs/Covered.antt`, whatever it is kept in.
//!
//! [`write_consolidated`] gives the one consolidated file of a coverage (`IsFileOf` of `specs/Written.antt`),
//! and [`read_consolidated`] reads it beside the object's map. [`Join`] is what a representation of
//! coverages has to do, and its laws.
#![tactic(auto)]

mod consolidated;
mod coverage;
mod entries;
mod exact;
mod fault;
mod found;
mod gathered;
mod join;
mod laws;
mod reading;
mod replay;
mod row_starts;
mod said;
mod set;
mod started;

pub use coverage::{Coverage, read_consolidated, write_consolidated};
pub use fault::AddFault;
pub use join::Join;
pub use laws::{
    a_coverage_has_one_file, a_trace_in_pieces_is_the_trace, own_traces_pass_all_checks,
    traces_of_runs_say_what_the_runs_tell, unions_have_their_laws,
};
