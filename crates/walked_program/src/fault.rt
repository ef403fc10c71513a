//! Why units are no legal program, and where.

use cov_base::Pos;
use thiserror::Error;

/// Which of the rules' steps refuses a program. The place is that of the first token of a construct that
/// breaks a rule while its parts keep theirs, or of what passes a limit first. Rules on names come before
/// those on types, over all units, and the limits come last.
#[derive(Clone, Copy, Debug, PartialEq, Eq, Error)]
pub enum CheckFault {
    /// A rule on names is broken.
    #[error("no such name")]
    Naming(Pos),
    /// A rule on types, or on static values, is broken.
    #[error("types do not fit")]
    Typing(Pos),
    /// A counted limit is passed.
    #[error("too large")]
    Limit(Pos),
}
