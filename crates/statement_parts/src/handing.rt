//! Values that are handed on in one piece, so that no caller drops them at an exit of its own.
//! For the same reason an arm that has no use for a value calls `drop`.

ghost use Rattle.statement_parts.specs.Pairs.{Pairs};

/// A part that was looked at, and the answer of the part behind it. The first part is taken over, so that
/// where the second one is refused nobody else drops it.
pub(crate) fn paired<A: Drop, B: Drop, E: Drop>(first: A, second: Result<B, E>) -> Result<(A, B), E>
    ensures { Pairs first second result }
{
    match second {
        Ok(second) => Ok((first, second)),
        Err(fault) => Err(fault),
    }
}
