//! Recording a run: what the trace of its transcript takes of it, kept while the run goes on.
//!
//! The contract that the layers above use is over [`Records`](../specs/Recorded.antt): a new
//! [`Recorder`] records the empty transcript, and [`Recorder::see`] leads from a transcript to the
//! one with one more instruction. It takes no memory but for the history of decisions whose graph is
//! no tree: room for a mark of each word of the text is made by [`Recorder::new`].
//! [`Recorder::trace`] gives the one trace file of the recorded transcript.
#![tactic(auto)]

mod blocks;
mod history;
mod laws;
mod mark;
mod recorder;

pub use laws::histories_are_no_longer_than_runs;
pub use recorder::Recorder;
