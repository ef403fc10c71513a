//! Files by name, each read whole or a part at a time, and written whole.

ghost use Rattle.std.specs.Prelude.{◌≡◌, ◌≢◌, ℕ, ◌<◌, ◌≤◌, ◌⊎◌, Option, [], length, OnOk, OnErr, IfSome, IsErrOf};
ghost use Rattle.cov_io.specs.declared.files.FileFault.TheVariants.{NoMemory};
ghost use Rattle.cov_io.specs.Outside.{Held, Rose, WhereTold, Holds, HoldsPart, IsAbsent, SameBut, Replaces};

use std::alloc::{AllocError, AllocFailed};
use thiserror::Error;

/// Why a file was not read or not written.
#[derive(Clone, Copy, Debug, PartialEq, Eq, Error)]
pub enum FileFault {
    /// The outside failed, or there is no such file to read.
    #[error("the file could not be read or written")]
    Failed,
    /// There was no memory for the call. Nothing outside has changed, and nothing is counted.
    #[error("out of memory")]
    NoMemory,
}

impl From<AllocError> for FileFault {
    ghost from_gives = { λ _ fault. fault ≡ NoMemory };

    fn from(_: AllocError) -> Self {
        FileFault::NoMemory
    }
}

impl<T: Drop> From<AllocFailed<T>> for FileFault {
    ghost from_gives = { λ _ fault. fault ≡ NoMemory };

    fn from(_: AllocFailed<T>) -> Self {
        FileFault::NoMemory
    }
}

/// Files that are found by name.
///
/// `held` is what they hold, or `None` where they do not tell it. `reads_failed` and
/// `writes_failed` count the faults of each kind, and stand still at `u64::MAX`.
pub trait Files {
    ghost held: { Self → Option Held };

    ghost reads_failed: { Self → ℕ };

    ghost writes_failed: { Self → ℕ };

    /// Replaces `into` by the bytes of the file, or empties it where that fails.
    ///
    /// A name that the files tell is not there is `Failed`, and is not counted.
    fn read(&mut self, name: &str, into: &mut Vec<u8>) -> Result<(), FileFault>
        ensures ok { OnOk result (IfSome (held self.old) (Holds name.now into.new.items)) }
        ensures err { OnErr result (into.new.items ≡ []) }
        ensures same { held self.new ≡ held self.old }

        // Why the files fail a read, and that a name which is not there always fails.
        ensures failed { IsErrOf result FileFault.Failed
            → Rose (reads_failed self.old) (reads_failed self.new)
            ⊎ IsAbsent (held self.old) name.now }
        ensures absent { IsAbsent (held self.old) name.now → IsErrOf result FileFault.Failed }

        // How the counts move.
        ensures uncounted { IsAbsent (held self.old) name.now
            → reads_failed self.new ≡ reads_failed self.old }
        ensures stays { result ≢ Err FileFault.Failed
            → reads_failed self.new ≡ reads_failed self.old }
        ensures later { reads_failed self.old ≤ reads_failed self.new }
        ensures writes { writes_failed self.new ≡ writes_failed self.old };

    /// Replaces `into` by a part of the file, or empties it where that fails.
    ///
    /// The part is the first of the bytes from `from` on, at most `most` of them. It may have fewer,
    /// and has none exactly where `from` is at the end of the file or past it. It fails as `read` does.
    fn read_part(
        &mut self,
        name: &str,
        from: u64,
        most: usize,
        into: &mut Vec<u8>,
    ) -> Result<(), FileFault>
        requires { 0 < most }
        ensures ok { OnOk result (IfSome (held self.old) (HoldsPart name.now from into.new.items)) }
        ensures few { length into.new.items ≤ most }
        ensures err { OnErr result (into.new.items ≡ []) }
        ensures same { held self.new ≡ held self.old }

        // Why the files fail a read, and that a name which is not there always fails.
        ensures failed { IsErrOf result FileFault.Failed
            → Rose (reads_failed self.old) (reads_failed self.new)
            ⊎ IsAbsent (held self.old) name.now }
        ensures absent { IsAbsent (held self.old) name.now → IsErrOf result FileFault.Failed }

        // How the counts move.
        ensures uncounted { IsAbsent (held self.old) name.now
            → reads_failed self.new ≡ reads_failed self.old }
        ensures stays { result ≢ Err FileFault.Failed
            → reads_failed self.new ≡ reads_failed self.old }
        ensures later { reads_failed self.old ≤ reads_failed self.new }
        ensures writes { writes_failed self.new ≡ writes_failed self.old };

    /// Replaces the bytes of the file, which is made if it is not there.
    ///
    /// After `Failed` the bytes under this name are unknown. After `NoMemory` they are as before.
    fn write(&mut self, name: &str, bytes: &[u8]) -> Result<(), FileFault>
        ensures ok { OnOk result
            (WhereTold (Replaces name.now bytes.now) (held self.old) (held self.new)) }
        ensures failed { IsErrOf result FileFault.Failed
            → WhereTold (SameBut name.now) (held self.old) (held self.new) }
        ensures no_memory { IsErrOf result FileFault.NoMemory → held self.new ≡ held self.old }

        // How the counts move.
        ensures rose { IsErrOf result FileFault.Failed
            → Rose (writes_failed self.old) (writes_failed self.new) }
        ensures stays { result ≢ Err FileFault.Failed
            → writes_failed self.new ≡ writes_failed self.old }
        ensures later { writes_failed self.old ≤ writes_failed self.new }
        ensures reads { reads_failed self.new ≡ reads_failed self.old };

    /// How many reads have failed.
    fn read_faults(&self) -> u64
        ensures { result ≡ reads_failed self.now };

    /// How many writes have failed.
    fn write_faults(&self) -> u64
        ensures { result ≡ writes_failed self.now };
}
