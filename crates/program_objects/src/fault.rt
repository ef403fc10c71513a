//! Why a source is refused, and where.

ghost use Rattle.std.specs.Prelude.{Some};
ghost use Rattle.program_objects.specs.Why.{why_text};

use std::fmt;
use thiserror::Error;

/// The rule that a source breaks.
#[derive(Clone, Copy, Debug, PartialEq, Eq)]
pub enum Why {
    /// It is larger than is allowed.
    Limit,
    /// Its text has a byte or a word that is no token.
    Lexical,
    /// Its tokens are no program.
    Syntax,
    /// A name is not there, or there twice.
    Naming,
    /// A thing does not fit its use.
    Typing,
    /// Its exemption pragmas are no regions.
    Exemption,
}

impl fmt::Display for Why {
    ghost output = { λ why. Some (why_text why) };

    fn fmt<W: fmt::Write>(&self, f: &mut fmt::Formatter<W>) -> fmt::Result {
        f.write_str(match self {
            Why::Limit => "limit",
            Why::Lexical => "lexical",
            Why::Syntax => "syntax",
            Why::Naming => "naming",
            Why::Typing => "typing",
            Why::Exemption => "exemption",
        })
    }
}

/// Why a source is refused, and the place that breaks the rule.
#[derive(Clone, Copy, Debug, PartialEq, Eq, Error)]
#[error("source {file}, line {line}, column {col}: {why}")]
pub struct SourceFault {
    pub file: u32,
    pub line: u32,
    pub col: u32,
    pub why: Why,
}
