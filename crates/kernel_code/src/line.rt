//! Lines of code: items with what is said of each.

use assembler::Item;
use cov_base::{CondIx, DecId, InstId, StmtId};

/// What is said of an item.
#[derive(Clone, Copy)]
pub enum Said {
    Nothing,
    /// It is executed once for each start of the statement.
    Starts {
        statement: StmtId,
        instance: InstId,
    },
    /// Its branch decides a condition, and is taken where that is True.
    Decides {
        decision: DecId,
        condition: CondIx,
        instance: InstId,
    },
    /// Its branch belongs to a check of the language.
    Checks,
    /// Its branch belongs to other control flow.
    Steers,
}

/// A line of code.
#[derive(Clone, Copy)]
pub struct Line {
    pub item: Item,
    pub said: Said,
}
