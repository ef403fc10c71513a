//! Making a command's output: all files are read and checked, and nothing is written or put yet.

ghost use Rattle.std.specs.Prelude.{◌≡◌, OnOk, IfOk, IfErr, IfSome};
ghost use Rattle.cov_io.specs.Outside.{Holds};
ghost use Rattle.commands.specs.Content.{IsFileOf, RefusesObject};
ghost use Rattle.commands.specs.Failures.{object_status};
ghost use Rattle.commands.specs.Reading.{IsUnread, UnlessMemory};

use crate::status::{FileRef, Status};
use cov_base::Failure;
use cov_io::{FileFault, Files};
use object_format::{Object, ObjectFault, read_object};
use std::alloc::Global;

pub mod compiled;
mod consolidate;
pub mod coverage;
mod kept;
mod printing;
mod report;
pub mod run;
pub mod sources;
mod traces;

/// A file to be written.
pub struct ReadyFile<'a> {
    pub name: &'a str,
    pub bytes: Vec<u8>,
}

// Written out: a derived drop is proved anew in each crate above.
impl<'a> Drop for ReadyFile<'a> {
    fn drop(self) {
        let ReadyFile { name: _, bytes: _ } = self;
    }
}

/// What a command made: the file that it writes, if it does, and the text that it puts.
pub struct Ready<'a> {
    pub file: Option<ReadyFile<'a>>,
    pub text: Vec<u8>,
}

// Written out: a derived drop is proved anew in each crate above.
impl<'a> Drop for Ready<'a> {
    fn drop(self) {
        let Ready { file: _, text: _ } = self;
    }
}

/// The bytes of the file in this place among those that the command reads.
fn read_file<F: Files>(
    alloc: Global,
    place: u32,
    name: &str,
    files: &mut F,
) -> Result<Vec<u8>, Status>
    ensures read { IfOk result (λ bytes. IfSome (F.held files.old) (Holds name.now bytes.items)) }
    ensures reads { OnOk result (F.reads_failed files.new ≡ F.reads_failed files.old) }
    ensures unread { IfErr result (IsUnread place name.now (F.held files.old) (F.reads_failed files.old)
        (F.reads_failed files.new)) }
    ensures same { F.held files.new ≡ F.held files.old }
    ensures writes { F.writes_failed files.new ≡ F.writes_failed files.old }
{
    let file = FileRef::Word(place);
    let mut bytes = Vec::new(alloc);
    match files.read(name, &mut bytes) {
        Ok(()) => Ok(bytes),
        Err(FileFault::Failed) => Err(Status::ReadFault { file }),
        Err(FileFault::NoMemory) => Err(Status::WantOfMemory),
    }
}

/// The object that a file holds.
fn object_of(alloc: Global, bytes: &[u8]) -> Result<Object, Status>
    ensures read { IfOk result (λ o. IsFileOf o bytes.now) }
    ensures refused { IfErr result (UnlessMemory (RefusesObject bytes.now)) }
{
    match read_object(alloc, bytes) {
        Ok(object) => Ok(object),
        Err(failure) => Err(refused_object(failure)),
    }
}

/// The status of an object that is refused.
fn refused_object(failure: Failure<ObjectFault>) -> Status
    ensures { result ≡ object_status failure }
{
    match failure {
        Failure::Fault(why) => Status::ObjectRefused { why },
        Failure::WantOfMemory => Status::WantOfMemory,
    }
}
