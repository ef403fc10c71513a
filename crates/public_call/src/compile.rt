//! `compile`: sources are made an object file.

ghost use Rattle.std.specs.Prelude.{◌≡◌, ◌<◌, ◌≤◌, All, IfOk, IfErr, length, map};
ghost use Rattle.command_words.specs.Task.{AreSources, Compile};
ghost use Rattle.commands.specs.Content.{CompilesTo, RefusesSources};
ghost use Rattle.commands.specs.Outcome.{Prepares};
ghost use Rattle.commands.specs.Reading.{UnlessMemory};
ghost use Rattle.commands.specs.Ready.{verdict_view};
ghost use Rattle.commands.specs.Built.{HasPlainName};

use commands::{Ready, ReadyFile, Status, read_sources, status_of, told};
use compiler::compile;
use cov_base::SourceFile;
use cov_io::Files;
use std::alloc::Global;

/// Reads the sources, compiles them, and makes the lines that tell what came of it.
pub fn prepare<'a, F: Files>(
    alloc: Global,
    main: &str,
    object: &'a str,
    sources: &[&str],
    files: &mut F,
) -> Result<Ready<'a>, Status>
    requires { AreSources (map (λ source. source.now) sources.now) }
    ensures prepares { Prepares (Compile main.now object.now (map (λ source. source.now) sources.now))
        (F.held files.old) (F.reads_failed files.old) (F.reads_failed files.new) (verdict_view result) }
    ensures same { F.held files.new ≡ F.held files.old }
    ensures writes { F.writes_failed files.new ≡ F.writes_failed files.old }
{
    let sources = read_sources(alloc, sources, files)?;
    let (bytes, text) = compiled(alloc, main, sources.as_slice())?;
    Ok(Ready {
        file: Some(ReadyFile {
            name: object,
            bytes,
        }),
        text,
    })
}

/// The object file of sources, and the lines that tell of it.
fn compiled(alloc: Global, main: &str, sources: &[SourceFile]) -> Result<(Vec<u8>, Vec<u8>), Status>
    requires many { (0 < length sources.now) × (length sources.now ≤ 64) }
    requires names { All HasPlainName sources.now }
    ensures made { IfOk result (λ made. CompilesTo main.now sources.now
        (record { file = made.0.items; text = made.1.items })) }
    ensures refused { IfErr result (UnlessMemory (RefusesSources main.now sources.now)) }
{
    match compile(alloc, sources, main) {
        Ok(compiled) => told(alloc, compiled),
        Err(failure) => Err(status_of(failure)),
    }
}
