//! Two parts, one behind the other.

ghost use Rattle.declaration_parser.specs.Pairs.{Pairs};

use expression_parser::Parsed;

/// A part that was read, and the answer of the part behind it. What was read is taken over, so that
/// its reader drops it nowhere.
pub fn paired<'a, A: Drop, B: Drop>(first: A, second: Parsed<'a, B>) -> Parsed<'a, (A, B)>
    ensures { Pairs first second.entry result }
{
    let (second, rest) = second?;
    Ok(((first, second), rest))
}
