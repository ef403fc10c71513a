//! Completed evaluations of decisions, rebuilt from a trace.
//!
//! The contracts that the layers above use: [`Rebuild::feed`] leads from the entries that were fed to
//! the list with one more, over [`Rebuilds`](../specs/Rebuilt.antt), and answers the evaluation that
//! the entry completes. It refuses exactly the entry that follows none before it. [`from_edges`] gives
//! the evaluations that the flags of a trace's blocks show, and [`edge_event`] that of one edge of a
//! block.
#![tactic(auto)]

mod edges;
mod fault;
mod half;
mod halves;
mod rebuild;
mod visit;

pub use edges::{edge_event, from_edges};
pub use fault::BrokenHistory;
pub use rebuild::Rebuild;
