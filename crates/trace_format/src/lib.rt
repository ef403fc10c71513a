//! The trace file: which blocks a run of an object executed and what its branches did, sealed by a
//! digest.
//!
//! The contract that the layers above use: [`TraceView::view`] answers a view exactly of the bytes
//! that are the file of a trace which passes the checks that need no object, and else the first check
//! that fails. [`write_trace`] gives the one file of such a trace. `IsClosed` of `specs/Checks.antt`
//! is the word for a trace that a view can show.
//!
//! [`TraceReader`] reads a trace from its front, a part of the file at a time, and gives its entries one
//! by one. Wherever parts end, it answers the fault that a view answers, and the closing digest only
//! where there is a view: what it gave is then that trace, entry by entry.
//!
//! Consolidated files, which hold what several runs covered, are read by [`ConsolidatedView::view`] and
//! written by [`write_consolidated`] likewise.
#![tactic(auto)]

mod check;
mod consolidated;
mod entry;
mod fault;
mod head;
mod laws;
mod reader;
mod stream;
mod trace;
mod view;
mod watch;
mod write;

pub use consolidated::{
    ConsFault, ConsolidatedParts, ConsolidatedView, StartEntry, VectorEntry, write_consolidated,
};
pub use entry::{Entry, ReaderFault};
pub use fault::TraceFault;
pub use laws::{one_consolidated_file, one_trace, passing};
pub use reader::TraceReader;
pub use trace::{Block, HistoryEntry, NOT_TAKEN, TAKEN, Trace, TraceParts};
pub use view::TraceView;
pub use write::{write_parts, write_trace};
