//! Calls over files in memory, of which some fail.

use crate::answer::{put_line, put_status};
use crate::fault::ScriptFault;
use crate::line::Plan;
use cov_io::{Entry, Files, MemFiles, MemSink, Sink};
use std::alloc::{AllocError, Global};

/// The name of the file that such a call may write.
const NEW: &str = "new";

/// A call of gnatcov over files in memory that a line asks for.
pub struct Trial {
    /// The command words, the program's name first.
    pub words: Vec<String>,
    /// The files before the call.
    kept: Vec<Entry>,
    /// Which calls of the files fail, by their numbers from 0.
    calls: Vec<u64>,
    /// Which puts fail, likewise.
    puts: Vec<u64>,
    /// How many bytes the sink has room for.
    room: usize,
}

// Written out: a derived drop is proved anew in each crate above.
impl Drop for Trial {
    fn drop(self) {
        let Trial {
            words: _,
            kept: _,
            calls: _,
            puts: _,
            room: _,
        } = self;
    }
}

impl Trial {
    /// A call with these words, over copies of the files with these names.
    pub(crate) fn of<F: Files>(
        alloc: Global,
        words: Vec<String>,
        names: &[String],
        plan: Plan<'_>,
        files: &mut F,
    ) -> Result<Self, ScriptFault> {
        Ok(Trial {
            words,
            kept: entries_of(alloc, names, files)?,
            calls: numbers_of(alloc, plan.calls)?,
            puts: numbers_of(alloc, plan.puts)?,
            room: plan.room,
        })
    }

    /// The files, which fail as planned.
    pub fn files(&self, alloc: Global) -> Result<MemFiles, AllocError> {
        let mut entries = Vec::new(alloc);
        for entry in &self.kept {
            add_entry(
                alloc,
                &mut entries,
                entry.name.as_str(),
                entry.bytes.as_slice(),
            )?;
        }
        Ok(MemFiles::new(entries, Vec::from_slice(alloc, self.calls.as_slice())?))
    }

    /// The sink, which fails as planned.
    pub fn sink(&self, alloc: Global) -> Result<MemSink, AllocError> {
        MemSink::new(
            alloc,
            self.room,
            Vec::from_slice(alloc, self.puts.as_slice())?,
        )
    }
}

/// Puts what such a call put, its status, how many reads and writes failed, and what became of the files.
pub fn put_outcome<S: Sink>(
    alloc: Global,
    trial: &Trial,
    files: &MemFiles,
    output: &[u8],
    status: u8,
    out: &mut S,
) -> Result<(), ScriptFault> {
    out.put(output)?;
    if !output.is_empty() && !output.ends_with(b"\n") {
        out.put(b"\n")?;
    }
    put_status(alloc, status, out)?;
    put_faults(alloc, files.read_faults(), files.write_faults(), out)?;
    put_changes(alloc, trial.kept.as_slice(), files, out)?;
    put_new(alloc, trial.kept.as_slice(), files, out)
}

fn put_faults<S: Sink>(
    alloc: Global,
    reads: u64,
    writes: u64,
    out: &mut S,
) -> Result<(), ScriptFault> {
    let line = format!(in alloc; "failed: {reads} reads, {writes} writes")?;
    put_line(line.as_str(), out)?;
    Ok(())
}

/// Puts the name of each file that is not as before.
fn put_changes<S: Sink>(
    alloc: Global,
    kept: &[Entry],
    files: &MemFiles,
    out: &mut S,
) -> Result<(), ScriptFault> {
    for entry in kept {
        if files.get(entry.name.as_str()) != Some(entry.bytes.as_slice()) {
            put_change(alloc, entry.name.as_str(), out)?;
        }
    }
    Ok(())
}

fn put_change<S: Sink>(alloc: Global, name: &str, out: &mut S) -> Result<(), ScriptFault> {
    let line = format!(in alloc; "changed: {name}")?;
    put_line(line.as_str(), out)?;
    Ok(())
}

/// Puts whether there is a new file, and which of the files it is like.
fn put_new<S: Sink>(
    alloc: Global,
    kept: &[Entry],
    files: &MemFiles,
    out: &mut S,
) -> Result<(), ScriptFault> {
    let line = match files.get(NEW) {
        Some(bytes) => format!(in alloc; "new: as {name}", name = name_of(kept, bytes)),
        None => String::from_str(alloc, "new: none"),
    }?;
    put_line(line.as_str(), out)?;
    Ok(())
}

/// The name of a file with these bytes.
fn name_of<'a>(kept: &'a [Entry], bytes: &[u8]) -> &'a str {
    for entry in kept {
        if entry.bytes.as_slice() == bytes {
            return entry.name.as_str();
        }
    }
    "no other"
}

/// Copies in memory of the files with these names.
fn entries_of<F: Files>(
    alloc: Global,
    names: &[String],
    files: &mut F,
) -> Result<Vec<Entry>, ScriptFault> {
    let mut entries = Vec::new(alloc);
    for name in names {
        let mut bytes = Vec::new(alloc);
        files.read(name.as_str(), &mut bytes)?;
        add_entry(alloc, &mut entries, name.as_str(), bytes.as_slice())?;
    }
    Ok(entries)
}

fn add_entry(
    alloc: Global,
    entries: &mut Vec<Entry>,
    name: &str,
    bytes: &[u8],
) -> Result<(), AllocError> {
    let entry = Entry {
        name: String::from_str(alloc, name)?,
        bytes: Vec::from_slice(alloc, bytes)?,
    };
    entries.push(entry)?;
    Ok(())
}

/// Numbers with commas between, `-` for none.
fn numbers_of(alloc: Global, text: &str) -> Result<Vec<u64>, ScriptFault> {
    let mut numbers = Vec::new(alloc);
    if text != "-" {
        for word in text.split(',') {
            let number = word.parse::<u64>().ok().ok_or(ScriptFault::Line)?;
            numbers.push(number)?;
        }
    }
    Ok(numbers)
}
