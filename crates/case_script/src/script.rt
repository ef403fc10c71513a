//! Playing a script line by line.

ghost use Rattle.std.specs.Prelude.{◌≡◌, ◌++◌, ◌∷◌, [], OnOk, string_bytes};

use crate::answer::put_line;
use crate::change::{closed, spliced};
use crate::fault::ScriptFault;
use crate::line::{Line, Making, Opening, Place, Plan, Shown, word_of};
use crate::trial::Trial;
use cov_io::{FileFault, Files, Sink};
use sha2::{Digest, Sha256};
use std::alloc::{AllocError, Global};

/// A file whose lines are being read: what it has so far, and what will stand behind those to come.
#[derive(Drop)]
struct OpenFile {
    name: String,
    text: String,
    behind: String,
}

impl OpenFile {
    /// A file of which nothing is known yet.
    fn new(alloc: Global, name: &str) -> Result<Self, AllocError> {
        Ok(OpenFile {
            name: String::from_str(alloc, name)?,
            text: String::new(alloc),
            behind: String::new(alloc),
        })
    }

    /// A file that has the lines of a text before the first of these, and behind the last.
    fn round(
        alloc: Global,
        name: &str,
        text: &str,
        first: usize,
        last: usize,
    ) -> Result<Self, AllocError> {
        let mut file = OpenFile::new(alloc, name)?;
        add_first_lines(&mut file.text, text, first.saturating_sub(1))?;
        add_lines_behind(&mut file.behind, text, last)?;
        Ok(file)
    }

    /// Writes the file, with what stands behind its lines.
    fn close<F: Files>(&mut self, files: &mut F) -> Result<(), FileFault> {
        self.text.push_str(self.behind.as_str())?;
        files.write(self.name.as_str(), self.text.as_bytes())
    }
}

/// Adds the first lines of a text.
fn add_first_lines(text: &mut String, from: &str, count: usize) -> Result<(), AllocError> {
    for line in from.lines().take(count) {
        add_line(text, line)?;
    }
    Ok(())
}

/// Adds the lines of a text but for the first.
fn add_lines_behind(text: &mut String, from: &str, count: usize) -> Result<(), AllocError> {
    for line in from.lines().skip(count) {
        add_line(text, line)?;
    }
    Ok(())
}

/// Adds a line, with its line feed.
fn add_line(text: &mut String, line: &str) -> Result<(), AllocError>
    ensures { OnOk result (string_bytes text.new ≡ (string_bytes text.old ++ line.now) ++ 10 ∷ []) }
{
    text.push_str(line)?;
    text.push('\n')
}

/// A call that a line asks for.
pub enum Asked {
    /// One over real files.
    Call(Call),
    /// One over files in memory, of which some fail.
    Trial(Trial),
}

// Written out: a derived drop is proved anew in each crate above.
impl Drop for Asked {
    fn drop(self) {
        match self {
            Asked::Call(_) => {}
            Asked::Trial(_) => {}
        }
    }
}

/// A call of gnatcov over real files.
pub struct Call {
    /// The command words, the program's name first.
    pub words: Vec<String>,
    /// Whether lines of digests, and of counts of instructions and of traces, are left out of its output.
    pub are_details_left_out: bool,
}

// Written out: a derived drop is proved anew in each crate above.
impl Drop for Call {
    fn drop(self) {
        let Call {
            words: _,
            are_details_left_out: _,
        } = self;
    }
}

impl Call {
    /// A call with these words after the program's name.
    fn of(
        alloc: Global,
        words: Option<&str>,
        are_details_left_out: bool,
    ) -> Result<Self, AllocError> {
        Ok(Call {
            words: named_words(alloc, words)?,
            are_details_left_out,
        })
    }
}

/// A script that is being played.
pub struct Script {
    alloc: Global,
    open: Option<OpenFile>,
    /// The names of the files that calls over files in memory have copies of.
    kept: Vec<String>,
}

// Written out: a derived drop is proved anew in each crate above.
impl Drop for Script {
    fn drop(self) {
        let Script {
            alloc: _,
            open: _,
            kept: _,
        } = self;
    }
}

impl Script {
    /// A script of which nothing was played yet.
    pub fn new(alloc: Global) -> Self {
        Script {
            alloc,
            open: None,
            kept: Vec::new(alloc),
        }
    }

    /// Plays the next line, over the files and the sink of the transcript. The call that it asks for, if
    /// it asks for one, is left to be made.
    pub fn play<F: Files, S: Sink>(
        &mut self,
        line: &str,
        files: &mut F,
        out: &mut S,
    ) -> Result<Option<Asked>, ScriptFault> {
        match &mut self.open {
            Some(file) if line == "end" => file.close(files)?,
            Some(file) => {
                add_line(&mut file.text, line)?;
                return Ok(None);
            }
            None => return self.begin(line, files, out),
        }
        self.open = None;
        Ok(None)
    }

    /// Plays a line that stands in no file.
    fn begin<F: Files, S: Sink>(
        &mut self,
        line: &str,
        files: &mut F,
        out: &mut S,
    ) -> Result<Option<Asked>, ScriptFault> {
        let alloc = self.alloc;
        match Line::of(line) {
            None => return Err(ScriptFault::Line),
            Some(Line::Remark) => put_line(line, out)?,
            Some(Line::Open(opening)) => self.open = Some(opened(alloc, opening, files)?),
            Some(Line::Make(making)) => make(alloc, making, files)?,
            Some(
                Line::Call {
                    words,
                    are_details_left_out,
                },
            ) => {
                put_line(line, out)?;
                let call = Call::of(alloc, words, are_details_left_out)?;
                return Ok(Some(Asked::Call(call)));
            }
            Some(Line::Keep { name }) => add_word(alloc, &mut self.kept, name)?,
            Some(Line::Trial { plan, words }) => {
                put_line(line, out)?;
                return Ok(Some(Asked::Trial(self.trial(plan, words, files)?)));
            }
            Some(Line::Show { what, name }) => show(alloc, what, name, files, out)?,
        }
        Ok(None)
    }

    /// A call over copies of the files that are kept.
    fn trial<F: Files>(
        &self,
        plan: Plan<'_>,
        words: &str,
        files: &mut F,
    ) -> Result<Trial, ScriptFault> {
        let words = words_of(self.alloc, words)?;
        Trial::of(self.alloc, words, self.kept.as_slice(), plan, files)
    }
}

/// A file that is begun.
fn opened<F: Files>(
    alloc: Global,
    opening: Opening<'_>,
    files: &mut F,
) -> Result<OpenFile, ScriptFault> {
    match opening {
        Opening::Whole { name } => Ok(OpenFile::new(alloc, name)?),
        Opening::Changed {
            new,
            old,
            first,
            last,
        } => {
            let bytes = read(alloc, old, files)?;
            Ok(changed(alloc, new, bytes.as_slice(), first, last)?)
        }
    }
}

/// A file like one of these bytes, without the lines between these.
fn changed(
    alloc: Global,
    name: &str,
    bytes: &[u8],
    first: usize,
    last: usize,
) -> Result<OpenFile, AllocError> {
    let text = String::from_utf8_lossy(alloc, bytes)?;
    OpenFile::round(alloc, name, text.as_str(), first, last)
}

/// Writes a file.
fn make<F: Files>(alloc: Global, making: Making<'_>, files: &mut F) -> Result<(), ScriptFault> {
    match making {
        Making::More { name, count, text } => add_turns(alloc, name, count, text, files),
        Making::Splice {
            new,
            old,
            place,
            count,
            hex,
        } => {
            let bytes = read(alloc, old, files)?;
            splice(alloc, new, bytes.as_slice(), place, count, hex, files)
        }
        Making::Close { new, old } => {
            let bytes = read(alloc, old, files)?;
            Ok(close(alloc, new, bytes.as_slice(), files)?)
        }
    }
}

/// Writes bytes of which some are replaced by others.
fn splice<F: Files>(
    alloc: Global,
    name: &str,
    bytes: &[u8],
    place: Place,
    count: usize,
    hex: &str,
    files: &mut F,
) -> Result<(), ScriptFault> {
    let others = hex::decode(alloc, hex).map_err(|_| ScriptFault::Line)?;
    let at = place.within(bytes.len());
    let spliced = spliced(alloc, bytes, at, count, others.as_slice())?;
    files.write(name, spliced.as_slice())?;
    Ok(())
}

/// Writes bytes with the digest that they have to end with.
fn close<F: Files>(
    alloc: Global,
    name: &str,
    bytes: &[u8],
    files: &mut F,
) -> Result<(), FileFault> {
    let closed = closed(alloc, bytes)?;
    files.write(name, closed.as_slice())
}

/// The bytes of a file.
fn read<F: Files>(alloc: Global, name: &str, files: &mut F) -> Result<Vec<u8>, FileFault> {
    let mut bytes = Vec::new(alloc);
    files.read(name, &mut bytes)?;
    Ok(bytes)
}

/// Words that blanks separate. `-` are none.
fn words_of(alloc: Global, words: &str) -> Result<Vec<String>, AllocError> {
    let mut all = Vec::new(alloc);
    if words != "-" {
        add_words(alloc, &mut all, words)?;
    }
    Ok(all)
}

/// The command words, behind the program's name.
fn named_words(alloc: Global, words: Option<&str>) -> Result<Vec<String>, AllocError> {
    let mut all = Vec::new(alloc);
    add_word(alloc, &mut all, "gnatcov")?;
    if let Some(words) = words {
        add_words(alloc, &mut all, words)?;
    }
    Ok(all)
}

/// Adds words that blanks separate.
fn add_words(alloc: Global, all: &mut Vec<String>, words: &str) -> Result<(), AllocError> {
    for word in words.split(' ') {
        add_word(alloc, all, word_of(word))?;
    }
    Ok(())
}

fn add_word(alloc: Global, all: &mut Vec<String>, word: &str) -> Result<(), AllocError> {
    let word = String::from_str(alloc, word)?;
    all.push(word)?;
    Ok(())
}

/// Adds a line so many times at the end of a file, which is made if it is not there.
fn add_turns<F: Files>(
    alloc: Global,
    name: &str,
    count: u32,
    text: &str,
    files: &mut F,
) -> Result<(), ScriptFault> {
    let mut bytes = Vec::new(alloc);
    let _ = files.read(name, &mut bytes);
    for turn in 0..count {
        add_turn(alloc, &mut bytes, turn, text)?;
    }
    files.write(name, bytes.as_slice())?;
    Ok(())
}

/// Adds a line, with the turn in place of `{i}`.
fn add_turn(alloc: Global, bytes: &mut Vec<u8>, turn: u32, text: &str) -> Result<(), AllocError> {
    let line = match text.split_once("{i}") {
        Some((before, behind)) => format!(in alloc; "{before}{turn}{behind}\n"),
        None => format!(in alloc; "{text}\n"),
    }?;
    bytes.extend_from_slice(line.as_bytes())
}

/// Puts what is asked of a file.
fn show<F: Files, S: Sink>(
    alloc: Global,
    what: Shown,
    name: &str,
    files: &mut F,
    out: &mut S,
) -> Result<(), ScriptFault> {
    match what {
        Shown::Digest => show_digest(alloc, name, read(alloc, name, files)?.as_slice(), out),
        Shown::Bytes => show_bytes(alloc, name, read(alloc, name, files)?.as_slice(), out),
        Shown::Presence => show_absence(alloc, name, read(alloc, name, files).is_err(), out),
    }
}

fn show_digest<S: Sink>(
    alloc: Global,
    name: &str,
    bytes: &[u8],
    out: &mut S,
) -> Result<(), ScriptFault> {
    let digest = Sha256::digest(bytes);
    let digest = hex::encode(alloc, digest.as_slice())?;
    let line = format!(in alloc; "digest {name}: {digest}")?;
    put_line(line.as_str(), out)?;
    Ok(())
}

fn show_bytes<S: Sink>(
    alloc: Global,
    name: &str,
    bytes: &[u8],
    out: &mut S,
) -> Result<(), ScriptFault> {
    let head = format!(in alloc; "bytes {name}:")?;
    put_line(head.as_str(), out)?;
    for row in bytes.chunks(32) {
        put_row(alloc, row, out)?;
    }
    Ok(())
}

fn put_row<S: Sink>(alloc: Global, row: &[u8], out: &mut S) -> Result<(), ScriptFault> {
    let row = hex::encode(alloc, row)?;
    put_line(row.as_str(), out)?;
    Ok(())
}

fn show_absence<S: Sink>(
    alloc: Global,
    name: &str,
    is_absent: bool,
    out: &mut S,
) -> Result<(), ScriptFault> {
    let answer = if is_absent { "yes" } else { "no" };
    let line = format!(in alloc; "absent {name}: {answer}")?;
    put_line(line.as_str(), out)?;
    Ok(())
}
