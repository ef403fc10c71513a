//! What is written and put, of an output that was made and of a refusal.

ghost use Rattle.std.specs.Prelude.{◌≡◌, ◌⊎◌, [], ◌∷◌, map, slice_get, unwrap_or};
ghost use Rattle.command_words.specs.Command.{task_view};
ghost use Rattle.commands.specs.declared.status.Status.TheVariants.{WantOfMemory};
ghost use Rattle.commands.specs.Lines.{line_of};
ghost use Rattle.commands.specs.Outcome.{call_of, PutsText, Delivers};
ghost use Rattle.commands.specs.Ready.{output_view, told_name};
ghost use Rattle.commands.specs.TaskFiles.{files_of, name_in_place};
ghost use Rattle.commands.specs.Verdict.{word_for, word_of};

use crate::ready::Ready;
use crate::status::{FileRef, OUT_OF_MEMORY_LINE, Refusal, Status, WRITE_FAULT_LINE};
use command_words::Command;
use cov_io::{FileFault, Files, Sink};
use std::alloc::Global;

/// Writes the file, then puts the text. Nothing is put after a put that failed.
pub fn deliver<F: Files, S: Sink>(ready: &Ready, files: &mut F, out: &mut S) -> Status
    ensures delivers { Delivers (output_view ready.now)
        (call_of F.held F.reads_failed F.writes_failed S.written S.failures files.old files.new out.old out.new)
        result }
    ensures reads { F.reads_failed files.new ≡ F.reads_failed files.old }
{
    if let Some(file) = &ready.file {
        match files.write(file.name, file.bytes.as_slice()) {
            Ok(()) => {}
            Err(FileFault::Failed) => {
                put_line(WRITE_FAULT_LINE, out);
                return Status::WriteFault;
            }
            Err(FileFault::NoMemory) => {
                put_line(OUT_OF_MEMORY_LINE, out);
                return Status::WantOfMemory;
            }
        }
    }
    match out.put(ready.text.as_slice()) {
        Ok(()) => Status::Done,
        Err(_) => Status::WriteFault,
    }
}

/// Puts the line of a refusal. Where there is no memory for the line, that is the answer.
pub fn refuse<S: Sink>(
    alloc: Global,
    command: &Command<'_>,
    refusal: &Refusal,
    out: &mut S,
) -> Status
    ensures { ((result ≡ refusal.now.status)
        × PutsText (line_of (told_name (task_view command.now) refusal.now) result) (S.written out.old)
        (S.written out.new) (S.failures out.old) (S.failures out.new))
        ⊎ ((result ≡ WantOfMemory) × PutsText (line_of [] result) (S.written out.old) (S.written out.new)
        (S.failures out.old) (S.failures out.new)) }
{
    match refusal.status.line(alloc, told_name(command, refusal)) {
        Ok(line) => {
            put_line(line.as_str(), out);
            refusal.status
        }
        Err(_) => {
            put_line(OUT_OF_MEMORY_LINE, out);
            Status::WantOfMemory
        }
    }
}

/// The name that the line of a refusal tells.
fn told_name<'a>(command: &Command<'a>, refusal: &'a Refusal) -> &'a str
    ensures { result.now ≡ told_name (task_view command.now) refusal.now }
{
    match &refusal.source {
        Some(name) => name.as_str(),
        None => word_for(command, refusal.status),
    }
}

/// The name that the words give to the file that a status tells of.
fn word_for<'a>(command: &Command<'a>, status: Status) -> &'a str
    ensures { result.now ≡ word_for (task_view command.now) status }
{
    match status {
        Status::SourceRefused { file, .. } => word_of(command, FileRef::Word(file)),
        Status::ReadFault { file } => word_of(command, file),
        _ => "",
    }
}

/// The name that the words give to a file. They give none to a source that the object names.
fn word_of<'a>(command: &Command<'a>, file: FileRef) -> &'a str
    ensures { result.now ≡ word_of (task_view command.now) file }
{
    match file {
        FileRef::Word(place) => name_in_place(command, place),
        FileRef::Source(_) => "",
    }
}

/// The name of the file in a place among those that the command names.
fn name_in_place<'a>(command: &Command<'a>, place: u32) -> &'a str
    ensures { result.now ≡ name_in_place (files_of (task_view command.now)) place }
{
    match command {
        Command::Compile { sources, .. } => one_of(place, sources.as_slice()),
        Command::Run { input, object, .. } => among(place, object, &[*input]),
        Command::Coverage { object, traces, .. } | Command::Consolidate { object, traces, .. } => {
            among(place, object, traces.as_slice())
        }
    }
}

/// The name in a place from 0 among a first one and later ones; none has a name beyond.
fn among<'a>(place: u32, first: &'a str, later: &[&'a str]) -> &'a str
    ensures { result.now ≡ unwrap_or (slice_get (first.now ∷ map (λ name. name.now) later.now) place) [] }
{
    match place.checked_sub(1) {
        None => first,
        Some(place) => one_of(place, later),
    }
}

/// The name in a place from 0 among these; none has a name beyond.
fn one_of<'a>(place: u32, names: &[&'a str]) -> &'a str
    ensures { result.now ≡ unwrap_or (slice_get (map (λ name. name.now) names.now) place) [] }
{
    names.get(place as usize).copied().unwrap_or("")
}

/// Puts a line. Where that fails there is nothing left to tell it by.
pub fn put_line<S: Sink>(line: &str, out: &mut S)
    ensures { PutsText line.now (S.written out.old) (S.written out.new) (S.failures out.old) (S.failures out.new) }
{
    let _ = out.put(line.as_bytes());
}
