//! Why a program has no copies.

use cov_base::Pos;
use thiserror::Error;

/// The expanded program is too large. The place is that of the first token of the unit with which, in the
/// order of the files, the count first passes the limit.
#[derive(Clone, Copy, Debug, PartialEq, Eq, Error)]
pub enum ExpandFault {
    /// It has more than 4096 nodes.
    #[error("too many nodes")]
    TooBig { pos: Pos },
    /// It has more than 64 instances.
    #[error("too many instances")]
    TooMany { pos: Pos },
}
