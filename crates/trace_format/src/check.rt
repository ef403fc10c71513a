//! The checks of a trace's entries.

ghost use Rattle.std.specs.Prelude.{◌≡◌};
ghost use Rattle.trace_format.specs.Checks as checks;

use crate::trace::{Block, HistoryEntry, NOT_TAKEN, TAKEN};
use spelling::Check;

/// Starts strictly rise, start and last are multiples of 4, and last is not below start.
pub struct InOrder;

impl Check<Block> for InOrder {
    ghost passes = { checks.in_order };

    fn passes(before: &Option<Block>, block: &Block) -> bool {
        let above = match before {
            Some(before) => before.start < block.start,
            None => true,
        };
        block.start % 4 == 0 && block.last % 4 == 0 && block.start <= block.last && above
    }
}

/// Flags are at most those of both edges.
pub struct KnownFlags;

impl Check<Block> for KnownFlags {
    ghost passes = { checks.has_known_flags };

    fn passes(_before: &Option<Block>, block: &Block) -> bool {
        block.flags <= TAKEN | NOT_TAKEN
    }
}

/// An edge is 0 or 1.
pub struct KnownEdge;

impl Check<HistoryEntry> for KnownEdge {
    ghost passes = { checks.has_known_edge };

    fn passes(_before: &Option<HistoryEntry>, entry: &HistoryEntry) -> bool {
        entry.edge <= 1
    }
}
