//! Values that are handed on in one piece, so that no caller drops them at an exit of its own.
//! For the same reason an arm that has no use for a value calls `drop`.

ghost use Rattle.ada_judged.specs.Both.{Both};

/// Both answers, or the first fault.
pub(crate) fn both<A: Drop, B: Drop, E: Drop>(
    first: Result<A, E>,
    second: Result<B, E>,
) -> Result<(A, B), E>
    ensures { Both first second result }
{
    Ok((first?, second?))
}
