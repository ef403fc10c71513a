//! What is kept of each line of each file.

ghost use Rattle.std.specs.Prelude.{◌≡◌, ◌<◌, ◌+◌, ◌||◌, ◌&&◌, ◌==◌, ℕ, List, false, length, map, nat_le, IfOk};
ghost use Rattle.std.specs.List.{list_any};
ghost use Rattle.std.specs.Str.Lines.{lines};
ghost use Rattle.xcov_report.specs.Told.{same_told, tells};
ghost use Rattle.xcov_report.specs.Table.{kept_in, kept_at, kept_mark, row_at, HaveLines, KeepsAll};
ghost use Rattle.xcov_report.specs.declared.told.Kept.{Kept};
ghost use Rattle.xcov_report.specs.declared.told.Told.{Told};

use crate::lines::line_count;
use crate::told::{Kept, Stretch, Told};
use cov_base::SourceFile;
use std::alloc::{AllocError, Global};
use std::marker::Model;

/// What is kept of the lines of a file, by their numbers. Contracts see it as a list.
pub(crate) struct Row {
    lines: Vec<Kept>,
}

// Written out: a derived drop is proved anew in each crate above.
impl Drop for Row {
    fn drop(self) {
        let Row { lines: _ } = self;
    }
}

impl Model for Row {
    ghost Value = { List Kept };

    ghost view = { λ row. row.lines.items };
}

impl Row {
    /// Nothing is kept of any line, nor of the number 0.
    fn of(alloc: Global, bytes: &[u8]) -> Result<Row, AllocError>
        ensures length { IfOk result (λ row. length row ≡ length (lines bytes.now) + 1) }
        ensures nothing { IfOk result (λ row. (told : Told) (line : ℕ) → kept_in told row line ≡ false) }
    {
        let count = line_count(bytes);
        let lines = vec![in alloc; Kept::nothing(); count + 1]?;
        Ok(Row { lines })
    }

    /// The mark of the line with a number.
    pub(crate) fn mark(&self, line: usize) -> u8
        ensures { result ≡ kept_mark self.now line }
    {
        if line < self.lines.len() {
            self.lines[line].mark()
        } else {
            b'.'
        }
    }

    /// Keeps what is told of a line, if there is that line.
    fn keep(&mut self, line: usize, told: Told)
        ensures length { length self.new ≡ length self.old }
        ensures kept { (other : Told) (at : ℕ) → at < length self.old
            → kept_in other self.new at ≡ (kept_in other self.old at || (same_told other told && (line == at))) }
    {
        if line < self.lines.len() {
            self.lines[line] = self.lines[line].with(told);
        }
    }

    /// Keeps what is told of the lines from one to another.
    fn keep_all(&mut self, from: usize, to: usize, told: Told)
        ensures length { length self.new ≡ length self.old }
        ensures kept { (other : Told) (at : ℕ) → at < length self.old
            → kept_in other self.new at
            ≡ (kept_in other self.old at || (same_told other told && (nat_le from at && nat_le at to))) }
    {
        let mut line = from;
        while line < self.lines.len() && line <= to {
            self.keep(line, told);
            line += 1;
        }
    }
}

/// Rows of which nothing is kept, one for each file.
fn empty_rows(alloc: Global, files: &[SourceFile]) -> Result<Vec<Row>, AllocError>
    ensures lengths { IfOk result (λ rows. map length rows.items
        ≡ map (λ file. length (lines file.bytes) + 1) files.now) }
    ensures nothing { IfOk result (λ rows. (told : Told) (file line : ℕ) → kept_at told rows.items file line ≡ false) }
{
    let mut rows = Vec::new(alloc);
    for file in files {
        rows.push(Row::of(alloc, file.bytes.as_slice())?)?;
    }
    Ok(rows)
}

/// Keeps what a stretch tells of its lines, where there are such.
fn keep(rows: &mut [Row], stretch: Stretch)
    ensures count { length rows.new ≡ length rows.old }
    ensures lengths { (file : ℕ) → length (row_at rows.new file) ≡ length (row_at rows.old file) }
    ensures kept { (told : Told) (file line : ℕ) → line < length (row_at rows.old file)
        → kept_at told rows.new file line ≡ (kept_at told rows.old file line || tells told file line stretch) }
{
    let file = stretch.file as usize;
    if file < rows.len() {
        rows[file].keep_all(stretch.from as usize, stretch.to as usize, stretch.told);
    }
}

/// Keeps what stretches tell of their lines.
fn keep_stretches(rows: &mut [Row], stretches: &[Stretch])
    ensures count { length rows.new ≡ length rows.old }
    ensures lengths { (file : ℕ) → length (row_at rows.new file) ≡ length (row_at rows.old file) }
    ensures kept { (told : Told) (file line : ℕ) → line < length (row_at rows.old file)
        → kept_at told rows.new file line
        ≡ (kept_at told rows.old file line || list_any (tells told file line) stretches.now) }
{
    for stretch in stretches {
        keep(rows, *stretch);
    }
}

/// What stretches tell of the lines of these files.
pub(crate) fn table(
    alloc: Global,
    files: &[SourceFile],
    stretches: &[Stretch],
) -> Result<Vec<Row>, AllocError>
    ensures lengths { IfOk result (λ rows. HaveLines rows.items files.now) }
    ensures kept { IfOk result (λ rows. KeepsAll rows.items stretches.now) }
{
    let mut rows = empty_rows(alloc, files)?;
    keep_stretches(rows.as_mut_slice(), stretches);
    Ok(rows)
}
