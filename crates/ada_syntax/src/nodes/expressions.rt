//! The nodes of names and expressions.

ghost use Rattle.std.specs.Prelude.{◌≡◌, ◌+◌, sum_by};
ghost use Rattle.ada_syntax.specs.Nodes as count;
ghost use Rattle.ada_syntax.specs.Nodes.{capped};

use crate::expr::{Expr, ExprKind, LogicalOperator, Operand};
use crate::name::{Name, Suffix};
use crate::nodes::plus;

fn nodes_of_operator(operator: LogicalOperator) -> u32
    ensures { result ≡ count.logical_operator_nodes operator }
{
    match operator {
        LogicalOperator::And | LogicalOperator::Or | LogicalOperator::Xor => 1,
        LogicalOperator::AndThen | LogicalOperator::OrElse => 2,
    }
}

#[cycle(expr_nodes)]
#[tactic(auto, using(crate::proofs::NodeLaws::nodes))]
pub fn nodes_of_expr(expr: &Expr) -> u32
    ensures { result ≡ capped (count.expr_nodes expr.now) }
{
    match &expr.kind {
        ExprKind::Numeral(_) => 1,
        ExprKind::Name(name) => nodes_of_name(name),
        ExprKind::Parenthesized(inner) => nodes_of_expr(inner),
        ExprKind::Unary(_, operand) => plus(1, nodes_of_expr(operand)),
        ExprKind::Product(first, others) => {
            plus(nodes_of_expr(first), nodes_of_operands(others))
        }
        ExprKind::Sum(first, others) => plus(nodes_of_expr(first), nodes_of_operands(others)),
        ExprKind::Relation(left, _, right) => {
            plus(plus(nodes_of_expr(left), 1), nodes_of_expr(right))
        }
        ExprKind::Logical(operator, first, others) => plus(
            nodes_of_expr(first),
            nodes_of_joined(nodes_of_operator(*operator), others),
        ),
    }
}

/// Operators, each with what stands right of it.
#[cycle(expr_nodes)]
fn nodes_of_operands(operands: &[Operand]) -> u32
    ensures { result ≡ capped (sum_by count.operand_nodes operands.now) }
{
    let mut nodes = 0;
    for operand in operands {
        nodes = plus(nodes, plus(1, nodes_of_expr(&operand.operand)));
    }
    nodes
}

/// Expressions, each with an operator before it that has `operator` nodes.
#[cycle(expr_nodes)]
fn nodes_of_joined(operator: u32, exprs: &[Expr]) -> u32
    ensures { result ≡ capped (sum_by (count.joined_nodes operator) exprs.now) }
{
    let mut nodes = 0;
    for expr in exprs {
        nodes = plus(nodes, plus(operator, nodes_of_expr(expr)));
    }
    nodes
}

#[cycle(expr_nodes)]
fn nodes_of_exprs(exprs: &[Expr]) -> u32
    ensures { result ≡ capped (sum_by count.expr_nodes exprs.now) }
{
    let mut nodes = 0;
    for expr in exprs {
        nodes = plus(nodes, nodes_of_expr(expr));
    }
    nodes
}

#[cycle(expr_nodes)]
#[tactic(auto, using(crate::proofs::NodeLaws::nodes))]
pub fn nodes_of_name(name: &Name) -> u32
    ensures { result ≡ capped (count.name_nodes name.now) }
{
    plus(1, nodes_of_suffixes(&name.suffixes))
}

#[cycle(expr_nodes)]
fn nodes_of_suffixes(suffixes: &[Suffix]) -> u32
    ensures { result ≡ capped (sum_by count.suffix_nodes suffixes.now) }
{
    let mut nodes = 0;
    for suffix in suffixes {
        nodes = plus(nodes, nodes_of_suffix(suffix));
    }
    nodes
}

#[cycle(expr_nodes)]
fn nodes_of_suffix(suffix: &Suffix) -> u32
    ensures { result ≡ capped (count.suffix_nodes suffix.now) }
{
    match suffix {
        Suffix::Selected(_) | Suffix::Attribute(_) => 1,
        Suffix::Applied(exprs) => nodes_of_exprs(exprs),
    }
}
