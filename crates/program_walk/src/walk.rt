//! The state of the walk.

ghost use Rattle.std.specs.Prelude.{◌≡◌, IfOk};
ghost use Rattle.program_walk.specs.Walks.{IsBeginning};

use crate::counts::Counts;
use crate::found::Found;
use crate::place::Notes;
use crate::symbols::Symbols;
use ada_demands::{SpanTable, Statics};
use ada_phrases::Decisions;
use std::alloc::{AllocError, Global};

/// What is declared so far, what the walk has noted, the values that loop parameters may have, the
/// counters, and what was found.
#[derive(Drop)]
pub struct Walk {
    pub symbols: Symbols,
    pub notes: Notes,
    pub spans: SpanTable,
    pub counts: Counts,
    pub found: Found,
}

impl Walk {
    /// Before any of so many units was looked at.
    pub fn new(alloc: Global, units: usize) -> Result<Walk, AllocError>
        ensures { IfOk result (IsBeginning units) }
    {
        let symbols = Symbols::new(alloc, units)?;
        Ok(Walk {
            symbols,
            notes: Notes {
                decisions: Decisions::new(alloc),
                statics: Statics::new(alloc),
            },
            spans: SpanTable::new(alloc),
            counts: Counts::new(),
            found: Found::new(alloc),
        })
    }
}
