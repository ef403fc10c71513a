//! Expressions and parts of names out of what was read for them: the answer of the last part is taken
//! as it is, and its fault is handed on (Ada RM 2012, 4.1, 4.4).

ghost use Rattle.ada_syntax.specs.Tree as tree;
ghost use Rattle.expression_parser.specs.Building.{operated, chained, Builds, Encloses, Applies, Makes, Both, Closes};

use crate::fault::{Fault, Parsed};
use crate::parser::word;
use crate::symbol::Symbol;
use ada_lexer::Token;
use ada_syntax::{Expr, LogicalOperator, Name, Operand, RelationalOperator, Suffix, UnaryOperator};
use cov_base::Pos;
use std::alloc::{AllocError, Global};

/// An expression that was made, before these tokens.
fn made<'a>(expr: Result<Expr, AllocError>, rest: &'a [Token]) -> Parsed<'a, Expr>
    ensures { Makes expr rest.now result }
{
    Ok((expr?, rest))
}

/// A part that was read, and the answer of the part behind it. What was read is taken over, so that
/// its reader drops it nowhere.
fn both<'a, A: Drop, B: Drop>(first: A, second: Parsed<'a, B>) -> Parsed<'a, (A, B)>
    ensures { Both first second.entry result }
{
    let (second, rest) = second?;
    Ok(((first, second), rest))
}

/// A part, and the closing parenthesis behind it, which is taken too.
fn closed<'a, T: Drop>(part: Parsed<'a, T>) -> Parsed<'a, T>
    ensures { Closes part.entry result }
{
    let (part, tokens) = part?;
    let rest = word(Symbol::RightParenthesis, tokens)?;
    Ok((part, rest))
}

/// A name as an expression.
pub fn named<'a>(pos: Pos, name: Parsed<'a, Name>) -> Parsed<'a, Expr>
    ensures { Builds (λ n. tree.named pos n) name.entry result }
{
    let (name, rest) = name?;
    Ok((Expr::named(pos, name), rest))
}

/// An expression in parentheses, of which the second one is still to be taken.
pub fn parenthesized<'a>(alloc: Global, pos: Pos, inner: Parsed<'a, Expr>) -> Parsed<'a, Expr>
    ensures { Encloses (λ e. tree.parenthesized pos e) inner.entry result }
{
    let (inner, rest) = closed(inner)?;
    made(Expr::parenthesized(alloc, pos, inner), rest)
}

/// An operator and its operand.
pub fn unary<'a>(
    alloc: Global,
    pos: Pos,
    operator: UnaryOperator,
    operand: Parsed<'a, Expr>,
) -> Parsed<'a, Expr>
    ensures { Builds (λ e. tree.unary pos operator e) operand.entry result }
{
    let (operand, rest) = operand?;
    made(Expr::unary(alloc, pos, operator, operand), rest)
}

/// A factor, and those behind it.
pub fn product<'a>(alloc: Global, first: Expr, others: Parsed<'a, Vec<Operand>>) -> Parsed<'a, Expr>
    ensures { Builds (operated first) others.entry result }
{
    let ((first, others), rest) = both(first, others)?;
    made(Expr::product(alloc, first, others), rest)
}

/// A term, and those behind it.
pub fn sum<'a>(alloc: Global, first: Expr, others: Parsed<'a, Vec<Operand>>) -> Parsed<'a, Expr>
    ensures { Builds (operated first) others.entry result }
{
    let ((first, others), rest) = both(first, others)?;
    made(Expr::sum(alloc, first, others), rest)
}

/// Two sides of a relational operator.
pub fn relation<'a>(
    alloc: Global,
    left: Expr,
    operator: RelationalOperator,
    right: Parsed<'a, Expr>,
) -> Parsed<'a, Expr>
    ensures { Builds (λ e. tree.relation (tree.expr_pos left) left operator e) right.entry result }
{
    let ((left, right), rest) = both(left, right)?;
    made(Expr::relation(alloc, left, operator, right), rest)
}

/// A relation, and those that an operator joins to it.
pub fn chain<'a>(
    alloc: Global,
    operator: LogicalOperator,
    first: Expr,
    others: Parsed<'a, Vec<Expr>>,
) -> Parsed<'a, Expr>
    ensures { Builds (chained operator first) others.entry result }
{
    let ((first, others), rest) = both(first, others)?;
    made(Expr::logical(alloc, operator, first, others), rest)
}

/// Actuals in parentheses, of which the second one is still to be taken.
pub fn applied<'a>(
    actuals: Parsed<'a, Vec<Expr>>,
) -> Result<Option<(Suffix, &'a [Token])>, Fault<'a>>
    ensures { Applies actuals.entry result }
{
    let (actuals, rest) = closed(actuals)?;
    Ok(Some((Suffix::Applied(actuals), rest)))
}
