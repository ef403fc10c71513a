//! Which statements, decisions and conditions a list of events covers.
//!
//! The contract that the layers above use: [`statement`] says whether a statement was started,
//! [`decision`] which outcomes a decision gave, and [`unique_cause`] and [`masking`] answer the least
//! pair of vectors of their kind that shows a condition to matter, and none exactly where no two
//! vectors are such a pair. They take vectors in any order; where these come in the order of vectors,
//! by which [`compare`] sorts them, a unique-cause pair is found soonest. [`all_edges`] says whether
//! the vectors take every edge of a decision's graph; where they do and the graph is a tree, each
//! condition has pairs of both kinds.
#![tactic(auto)]

mod cause;
mod edges;
mod order;
mod pair;
mod verdict;

pub use edges::all_edges;
pub use order::compare;
pub use pair::{masking, unique_cause};
pub use verdict::{Outcomes, decision, statement};
