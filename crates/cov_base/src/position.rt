//! Places in source text, and the numbers by which files, objects and traces name things.

ghost use Rattle.std.specs.Prelude.{◌≡◌};
ghost use Rattle.cov_base.specs.TextOrder.{precedes};

/// A place in the sources: the number of the file, and line and column, both from 1. Columns count
/// bytes.
#[derive(Clone, Copy, Debug, PartialEq, Eq, PartialOrd, Ord)]
pub struct Pos {
    pub file: u32,
    pub line: u32,
    pub col: u32,
}

impl Pos {
    /// Whether this place comes before another: by file, line and column.
    pub fn precedes(self, other: Pos) -> bool
        ensures { result ≡ precedes self other }
    {
        self.file < other.file
            || self.file == other.file
                && (self.line < other.line || self.line == other.line && self.col < other.col)
    }
}

/// The number of a statement obligation, from 0 in the order of file, line and column.
#[derive(Clone, Copy, PartialEq, Eq, PartialOrd, Ord)]
pub struct StmtId(pub u32);

/// The number of a decision, from 0 in the order of file, line and column.
#[derive(Clone, Copy, PartialEq, Eq, PartialOrd, Ord)]
pub struct DecId(pub u32);

/// The number of an instance. Number 0 is all that stands in no generic.
#[derive(Clone, Copy, PartialEq, Eq, PartialOrd, Ord)]
pub struct InstId(pub u32);

/// The place of a condition in its decision, from 0 to 31.
#[derive(Clone, Copy, PartialEq, Eq, PartialOrd, Ord)]
pub struct CondIx(pub u8);
