//! Files in memory.

ghost use Rattle.std.specs.Prelude.{◌≡◌, ◌<◌, ◌≤◌, length, Some};
ghost use Rattle.std.specs.Option.{option_copied};
ghost use Rattle.std.specs.FinMap as map;
ghost use Rattle.cov_io.specs.Entries.{held_of};
ghost use Rattle.cov_io.specs.MemFiles.{held_by, failing_calls};
ghost use Rattle.cov_io.specs.Outside.{IsPart};

use crate::contents::{Contents, Entry};
use crate::fault_counts::FaultCounts;
use crate::fault_plan::FaultPlan;
use crate::files::{FileFault, Files};

/// Files in memory, which tell all that they hold and fail at the calls that they were told.
///
/// A write that is to fail leaves the file as it was.
pub struct MemFiles {
    contents: Contents,
    plan: FaultPlan,
    faults: FaultCounts,
}

// Written out: a derived drop is proved anew in each crate above.
impl Drop for MemFiles {
    fn drop(self) {
        let MemFiles {
            contents: _,
            plan: _,
            faults: _,
        } = self;
    }
}

impl MemFiles {
    /// Files with these contents, where the first entry of a name counts.
    ///
    /// `failing` has the calls that are to fail: reads and writes are numbered together, from 0.
    /// Takes no memory.
    pub fn new(contents: Vec<Entry>, failing: Vec<u64>) -> Self
        ensures holds { held_by result ≡ held_of contents.items }
        ensures plan { failing_calls result ≡ failing.items }
        ensures no_read_faults { ⟦<MemFiles as Files>⟧.reads_failed result ≡ 0 }
        ensures no_write_faults { ⟦<MemFiles as Files>⟧.writes_failed result ≡ 0 }
    {
        MemFiles {
            contents: Contents::new(contents),
            plan: FaultPlan::new(failing),
            faults: FaultCounts {
                reads: 0,
                writes: 0,
            },
        }
    }

    /// The bytes that the name has now. Counts as no call.
    pub fn get(&self, name: &str) -> Option<&[u8]>
        ensures { option_copied result ≡ map.get (held_by self.now) name.now }
    {
        self.contents.get(name)
    }
}

impl Files for MemFiles {
    ghost held = { λ files. Some (held_by files) };

    ghost reads_failed = { λ files. files.faults.reads };

    ghost writes_failed = { λ files. files.faults.writes };

    fn read(&mut self, name: &str, into: &mut Vec<u8>) -> Result<(), FileFault> {
        into.clear();
        let fails = self.plan.fails_next();
        let Some(bytes) = self.contents.get(name) else {
            return Err(FileFault::Failed);
        };
        if fails {
            return Err(self.faults.fail_read());
        }
        into.extend_from_slice(bytes)?;
        Ok(())
    }

    fn read_part(
        &mut self,
        name: &str,
        from: u64,
        most: usize,
        into: &mut Vec<u8>,
    ) -> Result<(), FileFault> {
        into.clear();
        let fails = self.plan.fails_next();
        let Some(bytes) = self.contents.get(name) else {
            return Err(FileFault::Failed);
        };
        if fails {
            return Err(self.faults.fail_read());
        }
        into.extend_from_slice(part_of(bytes, from, most))?;
        Ok(())
    }

    fn write(&mut self, name: &str, bytes: &[u8]) -> Result<(), FileFault> {
        if self.plan.fails_next() {
            return Err(self.faults.fail_write());
        }
        self.contents.insert(name, bytes)
    }

    fn read_faults(&self) -> u64 {
        self.faults.reads
    }

    fn write_faults(&self) -> u64 {
        self.faults.writes
    }
}

/// As many of the bytes from `from` on as there are, up to `most`.
fn part_of(bytes: &[u8], from: u64, most: usize) -> &[u8]
    requires { 0 < most }
    ensures part { IsPart from bytes.now result.now }
    ensures few { length result.now ≤ most }
{
    let start = bytes.len().min(from as usize);
    let rest = &bytes[start..];
    &rest[..rest.len().min(most)]
}
