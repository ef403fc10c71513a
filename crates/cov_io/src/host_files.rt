//! The files of the system.

ghost use Rattle.std.specs.Prelude.{◌≡◌, ◌≤◌, None, length, OnOk, IfSome};
ghost use Rattle.cov_io.specs.Outside.{Appends};

use crate::fault_counts::FaultCounts;
use crate::files::{FileFault, Files};
use std::io::{ErrorKind, Read, Seek, SeekFrom};
use std::{fs, rt};

/// How many bytes one turn of a read asks for.
const TURN: usize = 4096;

/// The files of the runtime `R`, which tell nothing of what they hold.
#[derive(Drop)]
pub struct HostFiles<R: rt::Files + Drop> {
    rt: R,
    faults: FaultCounts,
}

impl<R: rt::Files + Drop> HostFiles<R> {
    /// The files that `rt` reaches, with no fault counted.
    pub fn new(rt: R) -> Self
        ensures no_read_faults { ⟦<HostFiles<R> as Files>⟧.reads_failed result ≡ 0 }
        ensures no_write_faults { ⟦<HostFiles<R> as Files>⟧.writes_failed result ≡ 0 }
    {
        HostFiles {
            rt,
            faults: FaultCounts {
                reads: 0,
                writes: 0,
            },
        }
    }
}

impl<R: rt::Files + Drop> Files for HostFiles<R> {
    ghost held = { λ _. None };

    ghost reads_failed = { λ files. files.faults.reads };

    ghost writes_failed = { λ files. files.faults.writes };

    fn read(&mut self, name: &str, into: &mut Vec<u8>) -> Result<(), FileFault> {
        into.clear();
        let outcome = match fs::open(&self.rt, name) {
            Ok(mut file) => read_to_end(&mut file, into),
            Err(_) => Err(FileFault::Failed),
        };
        self.faults.end_read(outcome, into)
    }

    fn read_part(
        &mut self,
        name: &str,
        from: u64,
        most: usize,
        into: &mut Vec<u8>,
    ) -> Result<(), FileFault> {
        into.clear();
        let outcome = match fs::open(&self.rt, name) {
            Ok(mut file) => read_once(&mut file, from, most, into),
            Err(_) => Err(FileFault::Failed),
        };
        self.faults.end_read(outcome, into)
    }

    fn write(&mut self, name: &str, bytes: &[u8]) -> Result<(), FileFault> {
        // This takes no memory, so whatever it answers is a fault of the files.
        if fs::write(&self.rt, name, bytes).is_err() {
            return Err(self.faults.fail_write());
        }
        Ok(())
    }

    fn read_faults(&self) -> u64 {
        self.faults.reads
    }

    fn write_faults(&self) -> u64 {
        self.faults.writes
    }
}

/// Appends all that the reader has left, or some of it where that fails.
fn read_to_end<R: Read>(reader: &mut R, into: &mut Vec<u8>) -> Result<(), FileFault>
    ensures ok { OnOk result
        (IfSome (R.remaining reader.old) (λ rest. Appends rest into.old.items into.new.items)) }
{
    let mut turn = [0; TURN];
    // The turns are bounded, since a file may never end. An interrupted one is tried again.
    for _ in 0..u32::MAX {
        match reader.read(&mut turn) {
            Ok(0) => return Ok(()),
            Ok(count) => into.extend_from_slice(&turn[..count])?,
            Err(error) if error.kind() == ErrorKind::Interrupted => {}
            Err(_) => return Err(FileFault::Failed),
        }
    }
    Err(FileFault::Failed)
}

/// Fills `into` by one read of at most `most` bytes from `from` on. An interrupted one is tried again.
fn read_once<R: Read + Seek>(
    reader: &mut R,
    from: u64,
    most: usize,
    into: &mut Vec<u8>,
) -> Result<(), FileFault>
    ensures { OnOk result (length into.new.items ≤ most) }
{
    if reader.seek(SeekFrom::Start(from)).is_err() {
        return Err(FileFault::Failed);
    }
    into.resize(most, 0)?;
    for _ in 0..u32::MAX {
        match reader.read(into.as_mut_slice()) {
            Ok(count) => {
                into.truncate(count);
                return Ok(());
            }
            Err(error) if error.kind() == ErrorKind::Interrupted => {}
            Err(_) => return Err(FileFault::Failed),
        }
    }
    Err(FileFault::Failed)
}
