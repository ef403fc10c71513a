//! Why a script is not played to its end.

use cov_io::{FileFault, SinkFailed};
use std::alloc::{AllocError, AllocFailed};
use thiserror::Error;

/// Why a line of a script is not played.
#[derive(Clone, Copy, Debug, PartialEq, Eq, Error)]
pub enum ScriptFault {
    /// It is none of the language.
    #[error("no line of a script")]
    Line,
    /// The script can't be read.
    #[error("the script could not be read")]
    Script,
    /// A file can't be read or written.
    #[error("a file could not be read or written")]
    File,
    /// The transcript can't be put.
    #[error("the transcript could not be put")]
    Transcript,
    /// There was too little memory.
    #[error("out of memory")]
    Memory,
}

impl From<AllocError> for ScriptFault {
    fn from(_: AllocError) -> Self {
        ScriptFault::Memory
    }
}

impl<T: Drop> From<AllocFailed<T>> for ScriptFault {
    fn from(_: AllocFailed<T>) -> Self {
        ScriptFault::Memory
    }
}

impl From<FileFault> for ScriptFault {
    fn from(fault: FileFault) -> Self {
        match fault {
            FileFault::Failed => ScriptFault::File,
            FileFault::NoMemory => ScriptFault::Memory,
        }
    }
}

impl From<SinkFailed> for ScriptFault {
    fn from(_: SinkFailed) -> Self {
        ScriptFault::Transcript
    }
}
