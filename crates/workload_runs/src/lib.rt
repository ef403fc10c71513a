//! The runs of a workload: an object is run on the eight inputs, each run's trace is read and added to what was
//! covered, and this is counted, all in memory.
//!
//! The contract that the layers above use: [`covered_by_runs`] answers the lines of the totals that the
//! transcripts of these runs come to (`TellsTotals` of `specs/Runs.antt`), or why one of the runs has no
//! ending.
#![tactic(auto)]

mod adding;
mod running;
mod telling;

pub use telling::covered_by_runs;
