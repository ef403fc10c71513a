//! How many calls have failed.

ghost use Rattle.std.specs.Prelude.{◌≡◌, ◌≢◌, ◌+◌, ◌-◌, ◌^◌, ◌≤◌, min, [], OnOk, OnErr, IsErrOf};
ghost use Rattle.cov_io.specs.Outside.{Rose};

use crate::files::FileFault;

/// How many reads and how many writes have failed. Each count stops at `u64::MAX`.
pub struct FaultCounts {
    pub reads: u64,
    pub writes: u64,
}

// Written out: a derived drop is proved anew in each crate above.
impl Drop for FaultCounts {
    fn drop(self) {
        let FaultCounts {
            reads: _,
            writes: _,
        } = self;
    }
}

impl FaultCounts {
    /// Counts a read that failed, and answers its fault.
    pub fn fail_read(&mut self) -> FileFault
        ensures fault { result ≡ FileFault.Failed }
        ensures counted { self.new.reads ≡ min (self.old.reads + 1) (2 ^ 64 - 1) }
        ensures later { self.old.reads ≤ self.new.reads }
        ensures writes { self.new.writes ≡ self.old.writes }
    {
        self.reads = self.reads.saturating_add(1);
        FileFault::Failed
    }

    /// Answers how a read ended. One that did not give its bytes leaves none, and one that failed is counted.
    pub fn end_read(
        &mut self,
        outcome: Result<(), FileFault>,
        into: &mut Vec<u8>,
    ) -> Result<(), FileFault>
        ensures same { result ≡ outcome }
        ensures ok { OnOk result (into.new.items ≡ into.old.items) }
        ensures err { OnErr result (into.new.items ≡ []) }
        ensures failed { IsErrOf result FileFault.Failed → Rose self.old.reads self.new.reads }
        ensures stays { result ≢ Err FileFault.Failed → self.new.reads ≡ self.old.reads }
        ensures later { self.old.reads ≤ self.new.reads }
        ensures writes { self.new.writes ≡ self.old.writes }
    {
        match outcome {
            Ok(()) => Ok(()),
            Err(FileFault::Failed) => {
                into.clear();
                Err(self.fail_read())
            }
            Err(FileFault::NoMemory) => {
                into.clear();
                Err(FileFault::NoMemory)
            }
        }
    }

    /// Counts a write that failed, and answers its fault.
    pub fn fail_write(&mut self) -> FileFault
        ensures fault { result ≡ FileFault.Failed }
        ensures counted { self.new.writes ≡ min (self.old.writes + 1) (2 ^ 64 - 1) }
        ensures later { self.old.writes ≤ self.new.writes }
        ensures reads { self.new.reads ≡ self.old.reads }
    {
        self.writes = self.writes.saturating_add(1);
        FileFault::Failed
    }
}
