//! Values that are handed on in one piece, so that no caller drops them at an exit of its own.
//! For the same reason an arm that has no use for a value calls `drop`.

ghost use Rattle.std.specs.Prelude.{◌≡◌, None, Err, if◌then◌else◌};
ghost use Rattle.ada_entities.specs.Answers.{refusal};
ghost use Rattle.ada_phrases.specs.Pairs.{Pairs};

use ada_entities::{Refusal, refused};
use cov_base::{Failure, Pos};

/// A part that was looked at, and the answer of the part behind it. The first part is taken over, so that
/// where the second one is refused nobody else drops it.
pub(crate) fn paired<A: Drop, B: Drop, E: Drop>(first: A, second: Result<B, E>) -> Result<(A, B), E>
    ensures { Pairs first second result }
{
    match second {
        Ok(second) => Ok((first, second)),
        Err(fault) => Err(fault),
    }
}

/// What was found, where a condition of it holds.
pub(crate) fn provided<T: Drop>(holds: bool, found: Option<T>) -> Option<T>
    ensures { result ≡ (if holds then found else None) }
{
    if holds { found } else { None }
}

/// The answer of a rule on types, where a rule on names holds; else the construct at this place is refused.
pub(crate) fn allowed<T: Drop>(
    holds: bool,
    pos: Pos,
    answer: Result<T, Failure<Refusal>>,
) -> Result<T, Failure<Refusal>>
    ensures { result ≡ (if holds then answer else Err (refusal pos)) }
{
    if holds { answer } else { Err(refused(pos)) }
}
