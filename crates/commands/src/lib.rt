//! What the commands of gnatcov do but for compiling: files are read and checked, runs are made and traces
//! covered, reports and files written, and each refusal is told in one line. `public_call` joins these to
//! the public call.
//!
//! A command reads its files, checks all of them and makes its output ([`Ready`]) before anything is written
//! or put ([`deliver`]). So a refusal leaves the files as they were and puts one line, which tells it.
//!
//! The definitions of what a command comes to stand here, with the laws that follow from them:
//! `specs/Outcome.antt` says why each status comes, and `specs/Content.antt` what it says of the bytes that
//! were read.
#![tactic(auto)]

mod delivery;
mod grouping;
mod laws;
mod ready;
mod run_lines;
mod status;

pub use decision_map::FitFault;
pub use delivery::{deliver, put_line, refuse};
pub use grouping::{calls_know_no_grouping, files_in_any_grouping_tell_the_same};
pub use laws::{grouping_does_not_matter, inputs_are_of_32_bits, regions_of_objects_rise};
pub use object_format::ObjectFault;
pub use program_objects::Why;
pub use ready::compiled::{status_of, told};
pub use ready::coverage::{self, Product};
pub use ready::sources::read_sources;
pub use ready::{Ready, ReadyFile, run};
pub use rv_machine::TrapWhy;
pub use status::{
    FileRef, OUT_OF_MEMORY_LINE, Refusal, Status, TraceWhy, USAGE_LINE, WRITE_FAULT_LINE,
};
pub use trace_format::{ConsFault, TraceFault};
pub use vector_rebuild::BrokenHistory;
