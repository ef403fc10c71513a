//! The annotated sources of coverage: each line of each file with its number and a mark, which says
//! what stands on it and whether that is satisfied.
//!
//! The contract that the layers above use: [`xcov`] gives the text that the definitions give to a level,
//! obligations, a number of traces, a list of events and the files. That text depends on which events
//! there are, and not on their order or on how often one is there. A region is marked by the findings
//! whose region the report tells ([`regions_are_marked_by_their_findings`]).
#![tactic(auto)]

mod laws;
mod lines;
mod listing;
mod obligations;
mod printing;
mod regions;
mod table;
mod told;

pub use laws::{regions_are_marked_by_their_findings, the_text_depends_on_the_set_of_events};
pub use listing::xcov;
