//! The commands, and the one fault of words.

use cov_base::{Annotation, Level, Seq};
use thiserror::Error;

/// What the words ask for. Names are names of files, but for `main`, the main unit's.
#[derive(Drop)]
pub enum Command<'a> {
    /// `compile --main=MAIN -o OBJECT SOURCE...`, with 1 to 64 sources, which are read in this order
    Compile {
        main: &'a str,
        object: &'a str,
        sources: Seq<&'a str>,
    },
    /// `run --input=INPUT [--budget=BUDGET] -o TRACE OBJECT`; the budget counts instructions.
    Run {
        input: &'a str,
        budget: u32,
        trace: &'a str,
        object: &'a str,
    },
    /// `coverage --level=LEVEL --annotate=ANNOTATE --object=OBJECT [TRACE...]`
    Coverage {
        level: Level,
        annotate: Annotation,
        object: &'a str,
        traces: Seq<&'a str>,
    },
    /// `consolidate --object=OBJECT -o OUT [TRACE...]`
    Consolidate {
        object: &'a str,
        out: &'a str,
        traces: Seq<&'a str>,
    },
}

/// The words are no command.
#[derive(Clone, Copy, Debug, PartialEq, Eq, Error)]
#[error("usage")]
pub struct Usage;
