//! The edge to the outside: files that are read whole or in parts and written whole, and the sink that
//! takes output.
//!
//! The layers above are generic over [`Files`] and [`Sink`], and know the outside by their
//! contracts alone. What they rest on most is where a failure may come from: a call fails only if
//! it raised the count of its kind, which stops at `u64::MAX`, or if it read a name that the files
//! tell is not there. So on files that tell what they hold, while no count rises, a read gives the
//! bytes held or the part that was asked for, a write replaces the bytes of one name, and a put goes out whole. Want of memory is
//! an answer of its own. It changes nothing outside, and is never counted.
//!
//! [`MemFiles`] and [`MemSink`] keep all in memory, tell it, and fail at the calls that they were
//! made to fail at. [`HostFiles`] and [`HostSink`] stand over the runtime and tell nothing.
#![tactic(auto)]

mod contents;
mod fault_counts;
mod fault_plan;
mod files;
mod host_files;
mod host_sink;
mod mem_files;
mod mem_sink;
mod sink;

pub use contents::Entry;
pub use files::{FileFault, Files};
pub use host_files::HostFiles;
pub use host_sink::HostSink;
pub use mem_files::MemFiles;
pub use mem_sink::MemSink;
pub use sink::{Sink, SinkFailed};
