//! Why a trace that is read in pieces is not added.

ghost use Rattle.std.specs.Prelude.{◌≡◌};
ghost use Rattle.coverage_set.specs.Read.{fault_of_reader};

use cov_base::Failure;
use decision_map::FitFault;
use thiserror::Error;
use trace_format::{ReaderFault, TraceFault};

/// The first that is wrong with a trace file: its read failed, or it fails a check of the format, or one
/// beside the object, or its history breaks at an entry, which is counted from 0.
#[derive(Clone, Copy, Debug, PartialEq, Eq, Error)]
pub enum AddFault {
    /// The file could not be read.
    #[error("the file could not be read")]
    Read,
    /// The first check of the format that the file fails.
    #[error("{0}")]
    Trace(TraceFault),
    /// The first check beside the object that the trace fails.
    #[error("{0}")]
    Fit(FitFault),
    /// The entry of the history that follows none before it.
    #[error("broken history at {at}")]
    Broken { at: u32 },
}

/// What a reader's failure is to one who adds the trace.
pub fn unread(failure: Failure<ReaderFault>) -> Failure<AddFault>
    ensures { result ≡ fault_of_reader failure }
{
    match failure {
        Failure::Fault(ReaderFault::Read) => Failure::Fault(AddFault::Read),
        Failure::Fault(ReaderFault::Trace(fault)) => Failure::Fault(AddFault::Trace(fault)),
        Failure::WantOfMemory => Failure::WantOfMemory,
    }
}
