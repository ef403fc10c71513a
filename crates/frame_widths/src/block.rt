//! The widths of statements and blocks (Ada RM 2012, 5, 6.3, 11.2).

ghost use Rattle.std.specs.Prelude.{◌≡◌};
ghost use Rattle.ada_tree.specs.Objects.{capped};
ghost use Rattle.ada_tree.specs.View.{alternatives_of, branches_of, handlers_of, statements_of};
ghost use Rattle.frame_widths.specs.Ends.{end_of_alternatives, end_of_block, end_of_branches, end_of_handlers, end_of_statement, end_of_statements};

use crate::simple::{width_of_assignment, width_of_call, width_of_declarations, width_of_range};
use crate::value::{width_of_expr, width_of_test};
use ada_tree::{Alternative, Block, Branch, Handler, Statement, StatementKind};

/// The first slot behind those that the code of a block works in, of which `slot` is the first. The count
/// stands still at 2^32 - 1.
pub fn end_of_block(slot: u32, block: &Block) -> u32
    ensures { result ≡ capped (end_of_block slot block.now) }
{
    slot.saturating_add(width_of_block(block))
}

/// The width of a block.
#[cycle(block)]
fn width_of_block(block: &Block) -> u32
    ensures { result ≡ capped (end_of_block 0 block.now) }
{
    let declared = width_of_declarations(block.declarations.as_slice());
    let stated = width_of_statements(&block.statements);
    let handled = width_of_handlers(&block.handlers);
    declared.max(stated).max(handled)
}

/// The width of statements.
#[cycle(block)]
fn width_of_statements(statements: &[Statement]) -> u32
    ensures { result ≡ capped (end_of_statements 0 (statements_of statements.now)) }
{
    let mut count = 1u32;
    for statement in statements {
        count = count.max(width_of_statement(statement));
    }
    count
}

/// The width of a statement. The bounds of a for loop stay in two slots while its statements are executed.
#[cycle(block)]
fn width_of_statement(statement: &Statement) -> u32
    ensures { result ≡ capped (end_of_statement 0 statement.now) }
{
    match &statement.kind {
        StatementKind::Assignment(_, _, value) => width_of_assignment(&[], value),
        StatementKind::PartAssignment(_, _, selectors, value) => {
            width_of_assignment(selectors, value)
        }
        StatementKind::Call(_, _, actuals) => width_of_call(actuals.as_slice()),
        StatementKind::If(_, branches, otherwise) => width_of_branches(branches, otherwise),
        StatementKind::Case(_, expr, alternatives) => width_of_expr(expr)
            .max(width_of_alternatives(alternatives))
            .max(3),
        StatementKind::Loop(_, statements) => width_of_statements(statements),
        StatementKind::While(_, decision, statements) => {
            width_of_test(&decision.test).max(width_of_statements(statements))
        }
        StatementKind::For(_, scheme, statements) => {
            width_of_range(&scheme.values).max(width_of_statements(statements).saturating_add(2))
        }
        StatementKind::ExitWhen(_, decision) => width_of_test(&decision.test),
        StatementKind::ReturnValue(_, _, expr) => width_of_expr(expr),
        StatementKind::Block(block) => width_of_block(block),
        StatementKind::Null(_)
        | StatementKind::Exit(_)
        | StatementKind::Return(_)
        | StatementKind::Raise(..)
        | StatementKind::RaiseAgain(_) => 1,
    }
}

/// The width of the branches of an if statement and of its else part.
#[cycle(block)]
fn width_of_branches(branches: &[Branch], otherwise: &[Statement]) -> u32
    ensures { result ≡ capped (end_of_branches 0 (branches_of branches.now (statements_of otherwise.now))) }
{
    let mut count = width_of_statements(otherwise);
    for branch in branches {
        count = count
            .max(width_of_test(&branch.decision.test))
            .max(width_of_statements(&branch.statements));
    }
    count
}

/// The width of the alternatives of a case statement.
#[cycle(block)]
fn width_of_alternatives(alternatives: &[Alternative]) -> u32
    ensures { result ≡ capped (end_of_alternatives 0 (alternatives_of alternatives.now)) }
{
    let mut count = 1u32;
    for alternative in alternatives {
        count = count.max(width_of_statements(&alternative.statements));
    }
    count
}

/// The width of handlers. The first slot holds the number of the exception.
#[cycle(block)]
fn width_of_handlers(handlers: &[Handler]) -> u32
    ensures { result ≡ capped (end_of_handlers 0 (handlers_of handlers.now)) }
{
    let mut count = 1u32;
    for handler in handlers {
        count = count
            .max(width_of_statements(&handler.statements).saturating_add(1))
            .max(3);
    }
    count
}
