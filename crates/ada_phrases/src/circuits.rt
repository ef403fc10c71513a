//! Short-circuit control forms, and which expressions are decisions of their own (Ada RM 2012, 4.5.1).

ghost use Rattle.std.specs.Prelude.{◌≡◌, is_some};
ghost use Rattle.ada_rules.specs.Denoted.{neutral_of};
ghost use Rattle.ada_rules.specs.Expressions as rules;
ghost use Rattle.ada_phrases.specs.Closing.{role_of};

use ada_syntax::{Expr, ExprKind, LogicalOperator, UnaryOperator};

/// Whether an expression stands by itself, or is an operand of the decision round it.
#[derive(Clone, Copy)]
pub enum Role {
    Itself,
    Operand,
}

impl Role {
    /// Whether an expression that may have a short-circuit control form is a decision of its own.
    pub fn opens(self, has_form: bool) -> bool
        ensures { result ≡ rules.opens (role_of self) has_form }
    {
        match self {
            Role::Itself => has_form,
            Role::Operand => false,
        }
    }

    /// The role of an operator's one operand.
    pub fn under(operator: UnaryOperator) -> Role
        ensures { role_of result ≡ rules.role_under operator }
    {
        match operator {
            UnaryOperator::Not => Role::Operand,
            UnaryOperator::Plus | UnaryOperator::Minus | UnaryOperator::Abs => Role::Itself,
        }
    }
}

/// Whether a logical operator is a short-circuit control form.
pub fn is_form(operator: LogicalOperator) -> bool
    ensures { result ≡ is_some (neutral_of operator) }
{
    match operator {
        LogicalOperator::AndThen | LogicalOperator::OrElse => true,
        LogicalOperator::And | LogicalOperator::Or | LogicalOperator::Xor => false,
    }
}

/// Whether an expression has a short-circuit control form, in parentheses and under `not` too.
#[cycle(circuits)]
pub fn is_circuit(expr: &Expr) -> bool
    ensures { result ≡ rules.is_circuit expr.now }
{
    match &expr.kind {
        ExprKind::Parenthesized(inner) => is_circuit(inner),
        ExprKind::Unary(operator, operand) => is_circuit_under(*operator, operand),
        ExprKind::Logical(operator, _, _) => is_form(*operator),
        _ => false,
    }
}

/// Whether the operand of an operator is part of the decision round it.
#[cycle(circuits)]
pub fn is_circuit_under(operator: UnaryOperator, operand: &Expr) -> bool
    ensures { result ≡ rules.is_circuit_under operator operand.now }
{
    match operator {
        UnaryOperator::Not => is_circuit(operand),
        UnaryOperator::Plus | UnaryOperator::Minus | UnaryOperator::Abs => false,
    }
}
