//! The obligations of a program: what coverage has to show of it, by place in its sources.

use crate::bytes::Bytes;
use crate::position::StmtId;
use crate::seq::Seq;

/// A SHA-256 digest.
pub type Digest = [u8; 32];

/// The full name of an exception, in lower case.
pub type ExceptionName = Bytes;

/// A source file: its name, and its bytes.
pub struct SourceFile {
    pub name: Bytes,
    pub bytes: Bytes,
}

// Written out: a derived drop is proved anew in each crate above.
impl Drop for SourceFile {
    fn drop(self) {
        let SourceFile { name: _, bytes: _ } = self;
    }
}

/// A statement obligation: where the statement begins.
#[derive(Clone, Copy, PartialEq, Eq)]
pub struct StmtEntry {
    pub file: u32,
    pub line: u32,
    pub column: u32,
}

/// A line and a column of a file that is known from elsewhere.
#[derive(Clone, Copy, PartialEq, Eq)]
pub struct Place {
    pub line: u32,
    pub column: u32,
}

/// The letter that says where a decision stands.
#[derive(Clone, Copy, PartialEq, Eq, PartialOrd, Ord)]
pub struct Letter(pub u8);

impl Letter {
    /// After `if` or `elsif`.
    pub const IF: Letter = Letter(b'I');
    /// After `while`.
    pub const WHILE: Letter = Letter(b'W');
    /// After `exit when`.
    pub const EXIT: Letter = Letter(b'E');
    /// Any other Boolean expression with a short-circuit operator.
    pub const EXPRESSION: Letter = Letter(b'X');
}

/// A decision's expression in postfix form, a byte for each part: 0 to 31 is that condition, 32 is
/// `not`, 33 `and then`, 34 `or else`.
pub struct DecisionExpr {
    pub postfix: Bytes,
}

// Written out: a derived drop is proved anew in each crate above.
impl Drop for DecisionExpr {
    fn drop(self) {
        let DecisionExpr { postfix: _ } = self;
    }
}

/// A decision: the statement that holds it, where it begins, its letter, its expression, and where
/// each of its conditions begins.
pub struct DecEntry {
    pub statement: StmtId,
    pub file: u32,
    pub line: u32,
    pub column: u32,
    pub letter: Letter,
    pub expression: DecisionExpr,
    pub conditions: Seq<Place>,
}

// Written out: a derived drop is proved anew in each crate above.
impl Drop for DecEntry {
    fn drop(self) {
        let DecEntry {
            statement: _,
            file: _,
            line: _,
            column: _,
            letter: _,
            expression: _,
            conditions: _,
        } = self;
    }
}

/// A region that is exempt from coverage, from its On pragma to its Off pragma, and why.
pub struct Region {
    pub file: u32,
    pub from_line: u32,
    pub from_column: u32,
    pub to_line: u32,
    pub to_column: u32,
    pub why: Bytes,
}

// Written out: a derived drop is proved anew in each crate above.
impl Drop for Region {
    fn drop(self) {
        let Region {
            file: _,
            from_line: _,
            from_column: _,
            to_line: _,
            to_column: _,
            why: _,
        } = self;
    }
}

/// An instance of a generic: its name, and where it is instantiated. The first of a program is all
/// that stands in no generic: it has an empty name and zeros.
pub struct InstanceEntry {
    pub name: Bytes,
    pub file: u32,
    pub line: u32,
    pub column: u32,
}

// Written out: a derived drop is proved anew in each crate above.
impl Drop for InstanceEntry {
    fn drop(self) {
        let InstanceEntry {
            name: _,
            file: _,
            line: _,
            column: _,
        } = self;
    }
}

/// What coverage has to show of a program. Statements rise strictly by file, line and column,
/// decisions don't fall by them, and instances and exceptions are numbered by their order, the
/// exceptions from 1.
pub struct Obligations {
    pub statements: Seq<StmtEntry>,
    pub decisions: Seq<DecEntry>,
    pub regions: Seq<Region>,
    pub instances: Seq<InstanceEntry>,
    pub exceptions: Seq<ExceptionName>,
}

// Written out: a derived drop is proved anew in each crate above.
impl Drop for Obligations {
    fn drop(self) {
        let Obligations {
            statements: _,
            decisions: _,
            regions: _,
            instances: _,
            exceptions: _,
        } = self;
    }
}
