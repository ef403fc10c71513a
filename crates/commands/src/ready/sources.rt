//! The sources that a compilation names, read one after another.

ghost use Rattle.std.specs.Prelude.{◌≡◌, ◌<◌, ◌≤◌, [], ◌∷◌, ◌++◌, All, IfErr, IfOk, IfSome, OnOk, length, map};
ghost use Rattle.std.specs.List.{AllByRecursion};
ghost use Rattle.cov_io.specs.Outside.{Holds};
ghost use Rattle.commands.specs.Reading.{IsUnread, StopsReading, WereSources};
ghost use Rattle.program_objects.specs.Built.{HasPlainName};

use crate::ready::read_file;
use crate::status::Status;
use cov_base::{Bytes, SourceFile};
use cov_io::Files;
use std::alloc::{AllocError, Global};

/// Reads the files of these names, in their order, as the sources of a compilation.
pub fn read_sources<F: Files>(
    alloc: Global,
    names: &[&str],
    files: &mut F,
) -> Result<Vec<SourceFile>, Status>
    requires some { 1 ≤ length names.now }
    requires few { length names.now ≤ 64 }
    requires short { AllByRecursion (λ name. length name ≤ 4096) (map (λ name. name.now) names.now) }
    ensures read { IfOk result (λ sources. WereSources (map (λ name. name.now) names.now) (F.held files.old)
        sources.items) }
    ensures many { IfOk result (λ sources. (0 < length sources.items) × (length sources.items ≤ 64)) }
    ensures plain { IfOk result (λ sources. All HasPlainName sources.items) }
    ensures reads { OnOk result (F.reads_failed files.new ≡ F.reads_failed files.old) }
    ensures stopped { IfErr result (StopsReading (map (λ name. name.now) names.now) (F.held files.old)
        (F.reads_failed files.old) (F.reads_failed files.new)) }
    ensures same { F.held files.new ≡ F.held files.old }
    ensures writes { F.writes_failed files.new ≡ F.writes_failed files.old }
{
    let mut sources = Vec::new(alloc);
    for place in 0..names.len() {
        let source = read_source(alloc, place as u32, names[place], files)?;
        add(&mut sources, source)?;
    }
    Ok(sources)
}

/// Appends a source.
pub fn add(sources: &mut Vec<SourceFile>, source: SourceFile) -> Result<(), AllocError>
    ensures { OnOk result (sources.new.items ≡ sources.old.items ++ (source ∷ [])) }
{
    sources.push(source)?;
    Ok(())
}

/// Reads the file of this name, which has this place from 0 among the sources.
fn read_source<F: Files>(
    alloc: Global,
    place: u32,
    name: &str,
    files: &mut F,
) -> Result<SourceFile, Status>
    requires { length name.now ≤ 4096 }
    ensures named { IfOk result (λ source. source.name ≡ name.now) }
    ensures plain { IfOk result HasPlainName }
    ensures read { IfOk result (λ source. IfSome (F.held files.old) (Holds name.now source.bytes)) }
    ensures reads { OnOk result (F.reads_failed files.new ≡ F.reads_failed files.old) }
    ensures unread { IfErr result (IsUnread place name.now (F.held files.old) (F.reads_failed files.old)
        (F.reads_failed files.new)) }
    ensures same { F.held files.new ≡ F.held files.old }
    ensures writes { F.writes_failed files.new ≡ F.writes_failed files.old }
{
    let bytes = read_file(alloc, place, name, files)?;
    Ok(source_of(alloc, name, bytes)?)
}

/// The source of this name, with these bytes.
pub fn source_of(alloc: Global, name: &str, bytes: Vec<u8>) -> Result<SourceFile, AllocError>
    ensures named { IfOk result (λ source. source.name ≡ name.now) }
    ensures bytes { IfOk result (λ source. source.bytes ≡ bytes.items) }
{
    Ok(SourceFile {
        name: Bytes::from(Vec::from_slice(alloc, name.as_bytes())?),
        bytes: Bytes::from(bytes),
    })
}
