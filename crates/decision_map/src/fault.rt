//! Why a trace cannot be one of an object.

use cov_base::Digest;
use thiserror::Error;

/// The first check that a trace fails beside an object. The checks stand in their order, and all
/// entries are held to one check before the next.
#[derive(Clone, Copy, Debug, PartialEq, Eq, Error)]
pub enum FitFault {
    /// It is another object's: the digest that the trace keeps, and that of the object.
    #[error("foreign")]
    Foreign { kept: Digest, object: Digest },
    /// It ended by an exception that the object doesn't hold.
    #[error("flag")]
    Ending,
    /// No block of the text starts and ends as this one does.
    #[error("not a block at {start:08x}")]
    NotABlock { start: u32 },
    /// The flags of a block are not those that its end has.
    #[error("edge at {start:08x}")]
    Edge { start: u32 },
    /// No execution of this entry's address is kept.
    #[error("history address at {at}")]
    HistoryAddress { at: u32 },
    /// No block shows the edge of this entry.
    #[error("history not flat at {at}")]
    HistoryNotFlat { at: u32 },
}
