//! The check `decision`: the bytes of each decision are an expression.

ghost use Rattle.std.specs.Prelude.{IsTrue, ◌↔◌, length};
ghost use Rattle.std.specs.List.{AllByRecursion};
ghost use Rattle.object_format.specs.Decisions.{AreExpression, PassesDecision};

use crate::object::Object;
use cov_base::DecEntry;

/// The byte of `not`.
const NOT: u8 = 32;

/// Whether bytes are the postfix bytes of an expression with so many conditions, which are numbered
/// in their order, and without a negation directly in a negation.
fn are_expression(bytes: &[u8], conditions: usize) -> bool
    ensures { IsTrue result ↔ AreExpression bytes.now conditions }
{
    let mut named: u8 = 0;
    let mut operands: u8 = 0;
    let mut is_negated = false;
    for byte in bytes {
        let byte = *byte;
        if byte == named && named < 32 {
            named += 1;
            operands += 1;
            is_negated = false;
        } else if byte > 32 && byte < 35 && operands > 1 {
            operands -= 1;
            is_negated = false;
        } else if byte == NOT && operands > 0 && !is_negated {
            is_negated = true;
        } else {
            return false;
        }
    }
    operands == 1 && named as usize == conditions
}

/// Whether the bytes of each decision are an expression with its conditions.
pub(crate) fn passes_decision(value: &Object) -> bool
    ensures { IsTrue result ↔ PassesDecision value.now }
{
    are_expressions(value.obligations.decisions.as_slice())
}

fn are_expressions(decisions: &[DecEntry]) -> bool
    ensures { IsTrue result ↔ AllByRecursion (λ d. AreExpression d.expression.postfix (length d.conditions)) decisions.now }
{
    for decision in decisions {
        if !are_expression(
            decision.expression.postfix.as_slice(),
            decision.conditions.len(),
        ) {
            return false;
        }
    }
    true
}
