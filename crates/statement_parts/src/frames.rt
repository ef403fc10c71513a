//! Whether there is a `return` in statements (Ada RM 2012, 6.5).

ghost use Rattle.std.specs.Prelude.{◌≡◌};
ghost use Rattle.ada_syntax.specs.StatementView.{statements_of, branches_of, alternatives_of, handlers_of};
ghost use Rattle.ada_rules.specs.Statements as rules;

use ada_syntax::{Alternative, Branch, HandledStatements, Handler, Statement, StatementKind};

/// Whether a statement is a `return`, or has one in it.
#[cycle(returns)]
fn has_return(statement: &Statement) -> bool
    ensures { result ≡ rules.has_return statement.now }
{
    match &statement.kind {
        StatementKind::Return(_) => true,
        StatementKind::If(first, others, last) => {
            any_return(first.statements.as_slice())
                || branches_return(others.as_slice())
                || any_return(last.as_slice())
        }
        StatementKind::Case(_, alternatives) => alternatives_return(alternatives.as_slice()),
        StatementKind::Loop(_, statements) => any_return(statements.as_slice()),
        StatementKind::Block(_, handled) => frame_returns(handled),
        _ => false,
    }
}

/// Whether there is a `return` in one of these statements.
#[cycle(returns)]
fn any_return(statements: &[Statement]) -> bool
    ensures { result ≡ rules.any_return (statements_of statements.now) }
{
    for statement in statements {
        if has_return(statement) {
            return true;
        }
    }
    false
}

/// The same of the branches of an if statement.
#[cycle(returns)]
fn branches_return(branches: &[Branch]) -> bool
    ensures { result ≡ rules.branches_return (branches_of branches.now) }
{
    for branch in branches {
        if any_return(branch.statements.as_slice()) {
            return true;
        }
    }
    false
}

/// The same of the alternatives of a case statement.
#[cycle(returns)]
fn alternatives_return(alternatives: &[Alternative]) -> bool
    ensures { result ≡ rules.arms_return (alternatives_of alternatives.now) }
{
    for alternative in alternatives {
        if any_return(alternative.statements.as_slice()) {
            return true;
        }
    }
    false
}

/// The same of handlers.
#[cycle(returns)]
fn handlers_return(handlers: &[Handler]) -> bool
    ensures { result ≡ rules.handlers_return (handlers_of handlers.now) }
{
    for handler in handlers {
        if any_return(handler.statements.as_slice()) {
            return true;
        }
    }
    false
}

/// Whether there is a `return` in the statements of a body or a block, or in their handlers.
#[cycle(returns)]
pub fn frame_returns(handled: &HandledStatements) -> bool
    ensures { result ≡ rules.frame_returns handled.now }
{
    any_return(handled.statements.as_slice()) || handlers_return(handled.handlers.as_slice())
}
