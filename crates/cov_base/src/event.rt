//! What coverage counts of an execution: statements that started, decisions that were evaluated.

use crate::position::{DecId, InstId, StmtId};

/// One completed evaluation of a decision. Bit `c` of `seen` says whether condition `c` was
/// evaluated, and bit `c` of `value` whether it was True. Bits of `value` outside `seen` are 0.
#[derive(Clone, Copy, PartialEq, Eq, PartialOrd, Ord)]
pub struct Vector {
    pub seen: u32,
    pub value: u32,
}

/// One event of an execution.
#[derive(Clone, Copy, PartialEq, Eq, PartialOrd, Ord)]
pub enum Event {
    /// A statement started, in an instance.
    Start(StmtId, InstId),
    /// An evaluation of a decision was completed, in an instance.
    Done(DecId, InstId, Vector),
}
