//! The nodes of statements.

ghost use Rattle.std.specs.Prelude.{◌≡◌, ◌+◌};
ghost use Rattle.ada_syntax.specs.Nodes as count;
ghost use Rattle.ada_syntax.specs.Nodes.{capped};
ghost use Rattle.ada_syntax.specs.StatementView.{statements_of, branches_of, alternatives_of, handlers_of};

use crate::declaration::Declaration;
use crate::nodes::declarations::{nodes_of_initial, nodes_of_pragma, nodes_of_range};
use crate::nodes::expressions::{nodes_of_expr, nodes_of_name};
use crate::nodes::{Nodes, length_nodes, nodes_of_all, plus};
use crate::statement::{
    Alternative, Branch, Choice, Direction, ExceptionChoice, HandledStatements, Handler,
    LoopScheme, Statement, StatementKind,
};
use cov_base::Seq;

impl Nodes for Choice {
    ghost nodes = { count.choice_nodes };

    fn nodes(&self) -> u32 {
        match self {
            Choice::Value(expr) => nodes_of_expr(expr),
            Choice::Range(bounds) => bounds.nodes(),
            Choice::Others(_) => 1,
        }
    }
}

impl Nodes for ExceptionChoice {
    ghost nodes = { count.exception_choice_nodes };

    fn nodes(&self) -> u32 {
        match self {
            ExceptionChoice::Named(name) => nodes_of_name(name),
            ExceptionChoice::Others(_) => 1,
        }
    }
}

fn nodes_of_scheme(scheme: &LoopScheme) -> u32
    ensures { result ≡ capped (count.scheme_nodes scheme.now) }
{
    match scheme {
        LoopScheme::Forever => 0,
        LoopScheme::While(condition) => plus(1, nodes_of_expr(condition)),
        LoopScheme::For(_, direction, range) => {
            plus(3 + nodes_of_direction(*direction), nodes_of_range(range))
        }
    }
}

fn nodes_of_direction(direction: Direction) -> u32
    ensures { result ≡ count.direction_nodes direction }
{
    match direction {
        Direction::Forward => 0,
        Direction::Reverse => 1,
    }
}

/// The nodes of a value that may stand behind `exit when`.
fn nodes_of_exit(condition: &Option<crate::expr::Expr>) -> u32
    ensures { result ≡ capped (count.if_present (λ e. 1 + count.expr_nodes e) condition.now) }
{
    match condition {
        Some(expr) => plus(1, nodes_of_expr(expr)),
        None => 0,
    }
}

fn nodes_of_returned(value: &Option<crate::expr::Expr>) -> u32
    ensures { result ≡ capped (count.if_present count.expr_nodes value.now) }
{
    match value {
        Some(expr) => nodes_of_expr(expr),
        None => 0,
    }
}

fn nodes_of_raised(name: &Option<crate::name::Name>) -> u32
    ensures { result ≡ capped (count.if_present count.name_nodes name.now) }
{
    match name {
        Some(name) => nodes_of_name(name),
        None => 0,
    }
}

fn nodes_of_declare(declarations: &Option<Seq<Declaration>>) -> u32
    ensures { result ≡ capped (count.declare_nodes declarations.now) }
{
    match declarations {
        Some(declarations) => plus(1, nodes_of_all(declarations.as_slice())),
        None => 0,
    }
}

#[cycle(statement_nodes)]
pub fn nodes_of_statement(statement: &Statement) -> u32
    ensures { result ≡ capped (count.statement_nodes statement.now) }
{
    match &statement.kind {
        StatementKind::Null => 1,
        StatementKind::Assignment(target, value) => {
            plus(plus(nodes_of_name(target), 1), nodes_of_initial(value))
        }
        StatementKind::Call(name) => nodes_of_name(name),
        StatementKind::Pragma(exemption) => nodes_of_pragma(exemption),
        StatementKind::If(first, others, else_part) => plus(
            plus(2, nodes_of_branch(first)),
            plus(nodes_of_branches(others), nodes_of_else(else_part)),
        ),
        StatementKind::Case(selector, alternatives) => plus(
            plus(4, nodes_of_expr(selector)),
            nodes_of_alternatives(alternatives),
        ),
        StatementKind::Loop(scheme, statements) => plus(
            plus(nodes_of_scheme(scheme), 3),
            nodes_of_statements(statements),
        ),
        StatementKind::Exit(condition) => plus(1, nodes_of_exit(condition)),
        StatementKind::Return(value) => plus(1, nodes_of_returned(value)),
        StatementKind::Raise(name) => plus(1, nodes_of_raised(name)),
        StatementKind::Block(declarations, handled) => plus(
            plus(2, nodes_of_declare(declarations)),
            nodes_of_handled(handled),
        ),
    }
}

#[cycle(statement_nodes)]
fn nodes_of_statements(statements: &[Statement]) -> u32
    ensures { result ≡ capped (count.statements_nodes (statements_of statements.now)) }
{
    let mut nodes = 0;
    for statement in statements {
        nodes = plus(nodes, nodes_of_statement(statement));
    }
    nodes
}

/// The statements of an else part, and the word before them, where there is such a part.
#[cycle(statement_nodes)]
fn nodes_of_else(statements: &[Statement]) -> u32
    ensures { result ≡ capped (count.else_nodes (statements_of statements.now)) }
{
    match statements {
        [] => 0,
        [..] => plus(1, nodes_of_statements(statements)),
    }
}

#[cycle(statement_nodes)]
fn nodes_of_branch(branch: &Branch) -> u32
    ensures { result ≡ capped (count.branch_nodes branch.now) }
{
    plus(
        plus(2, nodes_of_expr(&branch.condition)),
        nodes_of_statements(&branch.statements),
    )
}

#[cycle(statement_nodes)]
fn nodes_of_branches(branches: &[Branch]) -> u32
    ensures { result ≡ capped (count.branches_nodes (branches_of branches.now)) }
{
    let mut nodes = 0;
    for branch in branches {
        nodes = plus(nodes, nodes_of_branch(branch));
    }
    nodes
}

#[cycle(statement_nodes)]
fn nodes_of_alternative(alternative: &Alternative) -> u32
    ensures { result ≡ capped (count.alternative_nodes alternative.now) }
{
    let choices = alternative.choices.as_slice();
    plus(
        plus(length_nodes(choices.len()), nodes_of_all(choices)),
        nodes_of_statements(&alternative.statements),
    )
}

#[cycle(statement_nodes)]
fn nodes_of_alternatives(alternatives: &[Alternative]) -> u32
    ensures { result ≡ capped (count.alternatives_nodes (alternatives_of alternatives.now)) }
{
    let mut nodes = 0;
    for alternative in alternatives {
        nodes = plus(nodes, nodes_of_alternative(alternative));
    }
    nodes
}

#[cycle(statement_nodes)]
fn nodes_of_handler(handler: &Handler) -> u32
    ensures { result ≡ capped (count.handler_nodes handler.now) }
{
    let choices = handler.choices.as_slice();
    plus(
        plus(length_nodes(choices.len()), nodes_of_all(choices)),
        nodes_of_statements(&handler.statements),
    )
}

#[cycle(statement_nodes)]
fn nodes_of_handlers(handlers: &[Handler]) -> u32
    ensures { result ≡ capped (count.handlers_nodes (handlers_of handlers.now)) }
{
    let mut nodes = 0;
    for handler in handlers {
        nodes = plus(nodes, nodes_of_handler(handler));
    }
    nodes
}

/// The handlers, and the word before them, where there is a handler.
#[cycle(statement_nodes)]
fn nodes_of_exception_part(handlers: &[Handler]) -> u32
    ensures { result ≡ capped (count.exception_part_nodes (handlers_of handlers.now)) }
{
    match handlers {
        [] => 0,
        [..] => plus(1, nodes_of_handlers(handlers)),
    }
}

#[cycle(statement_nodes)]
pub fn nodes_of_handled(handled: &HandledStatements) -> u32
    ensures { result ≡ capped (count.handled_nodes handled.now) }
{
    plus(
        nodes_of_statements(&handled.statements),
        nodes_of_exception_part(&handled.handlers),
    )
}
