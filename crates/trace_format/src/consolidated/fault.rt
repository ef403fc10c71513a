//! Why bytes are no consolidated file of an object.

ghost use Rattle.std.specs.Prelude.{◌≡◌};
ghost use Rattle.cov_base.specs.declared.failure.Failure.TheVariants.{Fault};
ghost use Rattle.trace_format.specs.ConsolidatedChecks.{layer_fault};

use cov_base::{Digest, Failure};
use spelling::LayerFault;
use thiserror::Error;

/// The first check that bytes fail, in the order of the checks. Places of entries count from 0, each
/// in its own list.
#[derive(Clone, Copy, Debug, PartialEq, Eq, Error)]
pub enum ConsFault {
    /// There are fewer than 8 bytes, or the counts or the digest pass the end.
    #[error("short")]
    Short,
    /// The bytes don't begin as a consolidated file does.
    #[error("magic")]
    Magic,
    /// The version isn't known.
    #[error("version")]
    Version,
    /// Bytes follow the digest.
    #[error("long")]
    Long,
    /// The digest isn't that of the bytes before it.
    #[error("damaged")]
    Damaged,
    /// An entry doesn't stand above the one before it, in the first list of which that is so.
    #[error("order at {at}")]
    Order { at: u64 },
    /// A condition of an evaluation is True that was not evaluated.
    #[error("flag at {at}")]
    Flag { at: u64 },
    /// It is another object's: the digest that the file keeps, and that of the object.
    #[error("foreign")]
    Foreign { kept: Digest, object: Digest },
    /// No row of the object starts this statement in this instance.
    #[error("start at {at}")]
    Start { at: u64 },
    /// There is no such decision in this instance, or no path of its graph from the root to a leaf
    /// gives this vector.
    #[error("vector at {at}")]
    Vector { at: u64 },
}

impl From<LayerFault> for ConsFault {
    ghost from_gives = { λ layer fault. fault ≡ layer_fault layer };

    fn from(fault: LayerFault) -> Self {
        match fault {
            LayerFault::Short => ConsFault::Short,
            LayerFault::Magic => ConsFault::Magic,
            LayerFault::Version => ConsFault::Version,
            LayerFault::Long => ConsFault::Long,
            LayerFault::Damaged => ConsFault::Damaged,
        }
    }
}

impl From<ConsFault> for Failure<ConsFault> {
    ghost from_gives = { λ fault failure. failure ≡ Fault fault };

    fn from(fault: ConsFault) -> Self {
        Failure::Fault(fault)
    }
}
