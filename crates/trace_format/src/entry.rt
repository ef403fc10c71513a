//! What a trace file tells, entry by entry.

use crate::fault::TraceFault;
use cov_base::Digest;
use thiserror::Error;

/// What stands next in a trace file that is read from its front.
#[derive(Clone, Copy)]
pub enum Entry {
    /// The closing digest of the object that was run, and how the run ended: 0 for return, else the
    /// number of an exception.
    Head { object: Digest, ending: u32 },
    /// A block, with the flags of the edges that were taken at its end.
    Block { start: u32, last: u32, flags: u8 },
    /// An entry of the history.
    History { address: u32, x8: u32, edge: u8 },
    /// The closing digest of the file, which passed all checks of the format.
    Close { digest: Digest },
}

/// Why a trace file is not read further.
#[derive(Clone, Copy, Debug, PartialEq, Eq, Error)]
pub enum ReaderFault {
    /// The file could not be read.
    #[error("the file could not be read")]
    Read,
    /// The first check of the format that the file fails.
    #[error("{0}")]
    Trace(TraceFault),
}
