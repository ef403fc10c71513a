//! The report of coverage as JSON: what the runs of a program show of its obligations, as one object.
//!
//! The contract that the layers above use: [`json`] gives the text that the definitions give to a level,
//! obligations, a number of traces, a list of events and the names of the files. It tells the verdicts of
//! the report that `annotated_report` prints: which statements were started, the outcomes and vectors of
//! decisions, the least pair of each condition, and how many findings each exempt region holds. The text
//! depends on which events there are, and not on their order or on how often one is there.
#![tactic(auto)]

mod conditions;
mod decisions;
mod laws;
mod printing;
mod regions;
mod statements;
mod strings;
mod vectors;
mod whole;

pub use laws::{
    the_json_carries_all_least_pairs, the_json_depends_on_the_set_of_events,
    the_pairs_are_the_least_of_the_events,
};
pub use printing::json;
