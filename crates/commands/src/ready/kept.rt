//! The sources that an object lists, read one after another and held against the digests that it keeps.

ghost use Rattle.std.specs.Prelude.{◌≡◌, ◌≤◌, [], ◌∷◌, IsUtf8, IfErr, IfOk, OnOk, length};
ghost use Rattle.std.specs.List.{AllByRecursion};
ghost use Rattle.commands.specs.Reading.{StopsAmongSources, StopsAtSource, UnlessMemory, WereKept};
ghost use Rattle.commands.specs.Ready.{IsOfSource, TellsOneSource, TellsSource};
ghost use Rattle.commands.specs.TaskFiles.{entry_names};

use crate::ready::sources::{add, source_of};
use crate::status::{FileRef, Refusal, Status};
use cov_base::SourceFile;
use cov_io::{FileFault, Files};
use object_format::{FileEntry, digest};
use std::alloc::Global;

/// Reads the sources that an object lists, in their order. Each has the digest that the object keeps, which is
/// looked at before the next is read.
pub fn kept_sources<F: Files>(
    alloc: Global,
    entries: &[FileEntry],
    files: &mut F,
) -> Result<Vec<SourceFile>, Refusal>
    requires few { length entries.now ≤ 64 }
    requires named { AllByRecursion (λ entry. IsUtf8 entry.name) entries.now }
    ensures kept { IfOk result (λ sources. WereKept entries.now (F.held files.old) sources.items) }
    ensures reads { OnOk result (F.reads_failed files.new ≡ F.reads_failed files.old) }
    ensures stopped { IfErr result (λ refusal. UnlessMemory (StopsAmongSources entries.now (F.held files.old)
        (F.reads_failed files.old) (F.reads_failed files.new)) refusal.status) }
    ensures told { IfErr result (TellsSource (entry_names entries.now)) }
    ensures same { F.held files.new ≡ F.held files.old }
    ensures writes { F.writes_failed files.new ≡ F.writes_failed files.old }
{
    let mut sources = Vec::new(alloc);
    for number in 0..entries.len() {
        let source = kept_source(alloc, number as u32, &entries[number], files)?;
        add(&mut sources, source)?;
    }
    Ok(sources)
}

/// Reads the source with this number in an object, which has the digest that the object keeps.
fn kept_source<F: Files>(
    alloc: Global,
    number: u32,
    entry: &FileEntry,
    files: &mut F,
) -> Result<SourceFile, Refusal>
    requires { IsUtf8 entry.now.name }
    ensures kept { IfOk result (λ source. WereKept (entry.now ∷ []) (F.held files.old) (source ∷ [])) }
    ensures reads { OnOk result (F.reads_failed files.new ≡ F.reads_failed files.old) }
    ensures stopped { IfErr result (λ refusal. StopsAtSource number entry.now (F.held files.old)
        (F.reads_failed files.old) (F.reads_failed files.new) refusal.status) }
    ensures told { IfErr result (TellsOneSource number entry.now.name) }
    ensures same { F.held files.new ≡ F.held files.old }
    ensures writes { F.writes_failed files.new ≡ F.writes_failed files.old }
{
    let name = std::str::from_utf8(entry.name.as_slice()).unwrap();
    let mut bytes = Vec::new(alloc);
    match files.read(name, &mut bytes) {
        Ok(()) => {}
        Err(FileFault::Failed) => {
            let file = FileRef::Source(number);
            return Err(of_source(alloc, Status::ReadFault { file }, name));
        }
        Err(FileFault::NoMemory) => return Err(Refusal::from(Status::WantOfMemory)),
    }
    if digest(bytes.as_slice()) != entry.sha256 {
        return Err(of_source(alloc, Status::SourceChanged { file: number }, name));
    }
    Ok(source_of(alloc, name, bytes)?)
}

/// The refusal of a source of this name, or want of memory where there is none for the name.
fn of_source(alloc: Global, status: Status, name: &str) -> Refusal
    ensures { IsOfSource status name.now result }
{
    match String::from_str(alloc, name) {
        Ok(name) => Refusal {
            status,
            source: Some(name),
        },
        Err(_) => Refusal::from(Status::WantOfMemory),
    }
}
