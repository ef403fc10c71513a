//! Why bytes are no trace file.

ghost use Rattle.std.specs.Prelude.{◌≡◌};
ghost use Rattle.trace_format.specs.Checks.{layer_fault};

use spelling::LayerFault;
use thiserror::Error;

/// The first check that bytes fail, in the order of the checks. Places of entries count from 0, each
/// in its own list.
#[derive(Clone, Copy, Debug, PartialEq, Eq, Error)]
pub enum TraceFault {
    /// There are fewer than 8 bytes, or the counts or the digest pass the end.
    #[error("short")]
    Short,
    /// The bytes don't begin as a trace file does.
    #[error("magic")]
    Magic,
    /// The version isn't known.
    #[error("version")]
    Version,
    /// Bytes follow the digest.
    #[error("long")]
    Long,
    /// The digest isn't that of the bytes before it.
    #[error("damaged")]
    Damaged,
    /// A block doesn't start above the one before it, one of its addresses is no multiple of 4, or
    /// its last is below its start.
    #[error("order at {at}")]
    Order { at: u32 },
    /// The flags of a block are above 3, or else the edge of an entry of the history is above 1.
    #[error("flag at {at}")]
    Flag { at: u32 },
}

impl From<LayerFault> for TraceFault {
    ghost from_gives = { λ layer fault. fault ≡ layer_fault layer };

    fn from(fault: LayerFault) -> Self {
        match fault {
            LayerFault::Short => TraceFault::Short,
            LayerFault::Magic => TraceFault::Magic,
            LayerFault::Version => TraceFault::Version,
            LayerFault::Long => TraceFault::Long,
            LayerFault::Damaged => TraceFault::Damaged,
        }
    }
}
