//! The statements that started, as the blocks of a trace come.

ghost use Rattle.std.specs.Prelude.{◌≡◌, ◌++◌, ◌<◌, [], ◌∷◌, List, drop, OnOk};
ghost use Rattle.cov_base.specs.Lists.{Everywhere};
ghost use Rattle.object_format.specs.Checked.{IsSound};
ghost use Rattle.trace_format.specs.declared.trace.Block.{Block};
ghost use Rattle.coverage_set.specs.Said.{starts_in};

use crate::started::{add_start, covers};
use cov_base::Event;
use object_format::Object;
use std::alloc::{AllocError, Global};
use trace_format::Block;

/// The starts of the rows that stand inside blocks, of which each is seen once, in rising order.
///
/// Rows rise by address. One that stands before the end of a block is in none of the later blocks
/// unless it is in this one, so each row is looked at once, and starts at most once.
pub struct RowStarts {
    next: usize,
    events: Vec<Event>,
}

// Written out: a derived drop is proved anew in each crate above.
impl Drop for RowStarts {
    fn drop(self) {
        let RowStarts { next: _, events: _ } = self;
    }
}

impl RowStarts {
    /// No block was seen.
    pub fn new(alloc: Global) -> Self
        ensures next { result.next ≡ 0 }
        ensures events { result.events.items ≡ [] }
    {
        RowStarts {
            next: 0,
            events: Vec::new(alloc),
        }
    }

    /// Takes the next block: the starts so far and those of later blocks in the rows that are left are
    /// what they were, with those of this block.
    pub fn see(&mut self, object: &Object, block: Block) -> Result<(), AllocError>
        requires { IsSound object.now }
        ensures { OnOk result ((later : List Block) → Everywhere (λ (b : Block). block.start < b.start) later
            → self.new.events.items ++ starts_in later (drop self.new.next object.now.rows)
            ≡ self.old.events.items ++ starts_in (block ∷ later) (drop self.old.next object.now.rows)) }
    {
        let rows = object.rows.as_slice();
        for place in self.next..rows.len() {
            let row = &rows[place];
            if block.last < row.address {
                self.next = place;
                return Ok(());
            }
            add_start(&mut self.events, row, covers(block, row.address))?;
        }
        self.next = self.next.max(rows.len());
        Ok(())
    }

    /// The starts, each once.
    pub fn as_slice(&self) -> &[Event]
        ensures { result.now ≡ self.now.events.items }
    {
        self.events.as_slice()
    }
}
