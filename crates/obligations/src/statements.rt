//! A walk over statements, in the order of the text.

ghost use Rattle.std.specs.Prelude.{◌≡◌, [], ◌∷◌, OnOk};
ghost use Rattle.ada_tree.specs.View.{alternatives_of, handlers_of, statements_of};
ghost use Rattle.obligations.specs.Entries.{joined, of_alternatives, of_declarations, of_handlers, of_statement, of_statements, of_branch, of_branches, of_block};

use crate::listing::Listing;
use crate::nested::{
    add_decision, add_in_actuals, add_in_expression, add_in_parts, add_in_turns, add_in_value,
};
use ada_tree::{Alternative, Block, Branch, Declaration, Handler, Statement, StatementKind};
use cov_base::Letter;
use std::alloc::AllocError;

/// Adds the entries of a body or of a block statement: of its declarations, of its statements, and of
/// its handlers. A block statement is itself no obligation.
#[cycle(statements)]
pub(crate) fn add_block(listing: &mut Listing, block: &Block) -> Result<(), AllocError>
    ensures { OnOk result (listing.new ≡ joined listing.old (of_block block.now)) }
{
    add_declarations(listing, block.declarations.as_slice())?;
    add_statements(listing, block.statements.as_slice())?;
    add_handlers(listing, block.handlers.as_slice())
}

/// Adds the entries of statements.
#[cycle(statements)]
fn add_statements(listing: &mut Listing, statements: &[Statement]) -> Result<(), AllocError>
    ensures { OnOk result (listing.new ≡ joined listing.old (of_statements (statements_of statements.now))) }
{
    for statement in statements {
        add_statement(listing, statement)?;
    }
    Ok(())
}

/// Adds the entries of a statement: its own, those of its decisions, and those of the statements in
/// it.
#[cycle(statements)]
fn add_statement(listing: &mut Listing, statement: &Statement) -> Result<(), AllocError>
    ensures { OnOk result (listing.new ≡ joined listing.old (of_statement statement.now)) }
{
    match &statement.kind {
        StatementKind::Null(label)
        | StatementKind::Exit(label)
        | StatementKind::Return(label)
        | StatementKind::Raise(label, _)
        | StatementKind::RaiseAgain(label) => listing.add_statement(*label),
        StatementKind::Assignment(label, _, value) => {
            listing.add_statement(*label)?;
            add_in_value(listing, label.number, value)
        }
        StatementKind::Call(label, _, actuals) => {
            listing.add_statement(*label)?;
            add_in_actuals(listing, label.number, actuals.as_slice())
        }
        StatementKind::If(label, branches, otherwise) => {
            listing.add_statement(*label)?;
            add_branches(listing, label.number, branches.as_slice())?;
            add_statements(listing, otherwise.as_slice())
        }
        StatementKind::Loop(label, body) => {
            listing.add_statement(*label)?;
            add_statements(listing, body.as_slice())
        }
        StatementKind::While(label, decision, body) => {
            listing.add_statement(*label)?;
            add_decision(listing, Letter::WHILE, label.number, decision)?;
            add_statements(listing, body.as_slice())
        }
        StatementKind::ExitWhen(label, decision) => {
            listing.add_statement(*label)?;
            add_decision(listing, Letter::EXIT, label.number, decision)
        }
        StatementKind::PartAssignment(label, _, parts, value) => {
            listing.add_statement(*label)?;
            add_in_parts(listing, label.number, parts.as_slice())?;
            add_in_value(listing, label.number, value)
        }
        StatementKind::Case(label, expr, alternatives) => {
            listing.add_statement(*label)?;
            add_in_expression(listing, label.number, expr)?;
            add_alternatives(listing, alternatives.as_slice())
        }
        StatementKind::For(label, scheme, body) => {
            listing.add_statement(*label)?;
            add_in_turns(listing, label.number, &scheme.values)?;
            add_statements(listing, body.as_slice())
        }
        StatementKind::ReturnValue(label, _, expr) => {
            listing.add_statement(*label)?;
            add_in_expression(listing, label.number, expr)
        }
        StatementKind::Block(block) => add_block(listing, block),
    }
}

/// Adds the entries of the branches of the if statement with this number.
#[cycle(statements)]
fn add_branches(
    listing: &mut Listing,
    statement: u32,
    branches: &[Branch],
) -> Result<(), AllocError>
    ensures { OnOk result (listing.new ≡ joined listing.old (of_branches statement branches.now)) }
{
    for branch in branches {
        add_branch(listing, statement, branch)?;
    }
    Ok(())
}

/// Adds the entries of a branch: those of its decision, and those of its statements.
#[cycle(statements)]
fn add_branch(listing: &mut Listing, statement: u32, branch: &Branch) -> Result<(), AllocError>
    ensures { OnOk result (listing.new ≡ joined listing.old (of_branch statement branch.now)) }
{
    add_decision(listing, Letter::IF, statement, &branch.decision)?;
    add_statements(listing, branch.statements.as_slice())
}

/// Adds the entries of the alternatives of a case statement.
#[cycle(statements)]
fn add_alternatives(listing: &mut Listing, alternatives: &[Alternative]) -> Result<(), AllocError>
    ensures { OnOk result (listing.new ≡ joined listing.old (of_alternatives (alternatives_of alternatives.now))) }
{
    for alternative in alternatives {
        add_statements(listing, alternative.statements.as_slice())?;
    }
    Ok(())
}

/// Adds the entries of handlers.
#[cycle(statements)]
fn add_handlers(listing: &mut Listing, handlers: &[Handler]) -> Result<(), AllocError>
    ensures { OnOk result (listing.new ≡ joined listing.old (of_handlers (handlers_of handlers.now))) }
{
    for handler in handlers {
        add_statements(listing, handler.statements.as_slice())?;
    }
    Ok(())
}

/// Adds the entries of declarations.
fn add_declarations(listing: &mut Listing, declarations: &[Declaration]) -> Result<(), AllocError>
    ensures { OnOk result (listing.new ≡ joined listing.old (of_declarations declarations.now)) }
{
    for declaration in declarations {
        add_declaration(listing, declaration)?;
    }
    Ok(())
}

/// Adds the entries of a declaration: where it has an initial value its own, and those of the decisions
/// in that value.
fn add_declaration(listing: &mut Listing, declaration: &Declaration) -> Result<(), AllocError>
    ensures { OnOk result (listing.new ≡ joined listing.old (of_declarations (declaration.now ∷ []))) }
{
    match declaration {
        Declaration::Initialized(label, _, value) => {
            listing.add_statement(*label)?;
            add_in_value(listing, label.number, value)
        }
        Declaration::WithoutValue(_, _) => Ok(()),
    }
}
