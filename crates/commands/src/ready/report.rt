//! The report of a coverage, in each of its forms.

ghost use Rattle.std.specs.Prelude.{◌≡◌, ◌≤◌, IfOk, IfErr, OnOk, IsUtf8, length};
ghost use Rattle.std.specs.List.{AllByRecursion};
ghost use Rattle.commands.specs.Products.{IsReportOf};
ghost use Rattle.commands.specs.Reading.{StopsAmongSources, UnlessMemory, WereShown};
ghost use Rattle.commands.specs.Ready.{answer_view, TellsSource};
ghost use Rattle.commands.specs.TaskFiles.{entry_names, read_for};
ghost use Rattle.commands.specs.Texts.{names_of};
ghost use Rattle.object_format.specs.Checked.{IsSound};

use crate::ready::Ready;
use crate::ready::kept::kept_sources;
use crate::ready::printing::printed;
use crate::status::Refusal;
use cov_base::{Annotation, Bytes, Level, SourceFile};
use cov_io::Files;
use coverage_set::Coverage;
use object_format::{FileEntry, Object};
use std::alloc::{AllocError, Global};

/// The report of what was covered. The sources that it annotates are read first.
pub fn reported<'a, F: Files>(
    alloc: Global,
    level: Level,
    annotate: Annotation,
    object: &Object,
    coverage: &Coverage<'_>,
    files: &mut F,
) -> Result<Ready<'a>, Refusal>
    requires sound { IsSound object.now }
    requires own { coverage.now.object ≡ object.now }
    ensures made { IsReportOf level annotate object.now coverage.now (F.held files.old) (F.reads_failed files.old)
        (F.reads_failed files.new) (answer_view result) }
    ensures named { IfErr result (TellsSource (entry_names (read_for annotate object.now.files))) }
    ensures same { F.held files.new ≡ F.held files.old }
    ensures writes { F.writes_failed files.new ≡ F.writes_failed files.old }
{
    let sources = shown_sources(alloc, annotate, object.files.as_slice(), files)?;
    let text = printed(alloc, level, annotate, object, coverage, sources.as_slice())?;
    Ok(Ready { file: None, text })
}

/// The sources that an object lists, as a form of the report shows them: those that it annotates are read, of
/// others it shows the names alone.
fn shown_sources<F: Files>(
    alloc: Global,
    annotate: Annotation,
    entries: &[FileEntry],
    files: &mut F,
) -> Result<Vec<SourceFile>, Refusal>
    requires few { length entries.now ≤ 64 }
    requires named { AllByRecursion (λ entry. IsUtf8 entry.name) entries.now }
    ensures shown { IfOk result (λ sources. WereShown annotate entries.now (F.held files.old) sources.items) }
    ensures reads { OnOk result (F.reads_failed files.new ≡ F.reads_failed files.old) }
    ensures stopped { IfErr result (λ refusal. UnlessMemory (StopsAmongSources (read_for annotate entries.now)
        (F.held files.old) (F.reads_failed files.old) (F.reads_failed files.new)) refusal.status) }
    ensures told { IfErr result (TellsSource (entry_names (read_for annotate entries.now))) }
    ensures same { F.held files.new ≡ F.held files.old }
    ensures writes { F.writes_failed files.new ≡ F.writes_failed files.old }
{
    match annotate {
        Annotation::Xcov => kept_sources(alloc, entries, files),
        Annotation::Report | Annotation::Json => Ok(named_files(alloc, entries)?),
    }
}

/// The files of the object, of which only the names are shown.
fn named_files(alloc: Global, entries: &[FileEntry]) -> Result<Vec<SourceFile>, AllocError>
    ensures { IfOk result (λ files. names_of files.items ≡ entry_names entries.now) }
{
    let mut files = Vec::new(alloc);
    for entry in entries {
        files.push(named(alloc, entry)?)?;
    }
    Ok(files)
}

/// A file of the object, by its name.
fn named(alloc: Global, entry: &FileEntry) -> Result<SourceFile, AllocError>
    ensures { IfOk result (λ file. file.name ≡ entry.now.name) }
{
    Ok(SourceFile {
        name: Bytes::from(Vec::from_slice(alloc, entry.name.as_slice())?),
        bytes: Bytes::from(Vec::new(alloc)),
    })
}
