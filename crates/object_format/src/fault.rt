//! Why bytes are no object file.

use std::error::Error;
use std::fmt;

/// The first check that the bytes of an object file fail. The checks stand in their order, but that
/// `Short` is looked at twice: for the first 8 bytes, and behind the version for all that follows.
#[derive(Clone, Copy, Debug, PartialEq, Eq)]
pub enum ObjectFault {
    /// There are less than 8 bytes, or a count runs past their end.
    Short,
    /// They don't begin with the magic bytes.
    Magic,
    /// The version is another.
    Version,
    /// Bytes follow the digest.
    Long,
    /// The digest is another one than that of the bytes before it.
    Damaged,
    /// A part is not as the format wants it.
    Field,
    /// The bytes of a decision's expression are no expression.
    Decision,
    /// The rows don't fit the text, or name a start twice.
    Row,
    /// The roles are not those of the text's conditional branches, or miss or repeat a condition.
    Role,
}

impl fmt::Display for ObjectFault {
    fn fmt<W: fmt::Write>(&self, f: &mut fmt::Formatter<W>) -> fmt::Result {
        f.write_str(match self {
            ObjectFault::Short => "short",
            ObjectFault::Magic => "magic",
            ObjectFault::Version => "version",
            ObjectFault::Long => "long",
            ObjectFault::Damaged => "damaged",
            ObjectFault::Field => "field",
            ObjectFault::Decision => "decision",
            ObjectFault::Row => "row",
            ObjectFault::Role => "role",
        })
    }
}

impl Error for ObjectFault {}
