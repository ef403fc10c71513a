//! The levels of coverage, and the forms of a report.

/// How much is asked of a program's runs, each level more than the one before.
#[derive(Clone, Copy, PartialEq, Eq)]
pub enum Level {
    /// Each statement is executed.
    Stmt,
    /// And each decision gives both outcomes.
    Decision,
    /// And each condition is shown to matter by a masking pair.
    Mcdc,
    /// And each condition is shown to matter by a unique-cause pair.
    UcMcdc,
}

/// The form in which coverage is shown.
#[derive(Clone, Copy, PartialEq, Eq)]
pub enum Annotation {
    /// Violations and totals, as lines of text.
    Report,
    /// The sources with a mark before each line.
    Xcov,
    /// One JSON object.
    Json,
}
