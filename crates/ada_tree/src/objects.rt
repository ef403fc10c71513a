//! How many objects a block declares.

ghost use Rattle.std.specs.Prelude.{◌≡◌, length};
ghost use Rattle.ada_meaning.specs.Objects.{objects, all_objects, branch_objects, alternative_objects, handler_objects, block_objects};
ghost use Rattle.ada_tree.specs.Objects.{capped};
ghost use Rattle.ada_tree.specs.View.{statements_of, branches_of, alternatives_of, handlers_of};

use crate::statement::{Alternative, Block, Branch, Handler, Statement, StatementKind};

impl Block {
    ghost use Rattle.std.specs.Prelude.{◌≡◌, length};
    ghost use Rattle.ada_meaning.specs.Objects.{block_objects};
    ghost use Rattle.ada_tree.specs.Objects.{capped};

    /// How many objects a block declares, with those of the blocks in it (RM 3.3.1, 5.6). The count
    /// stands still at 2^32 - 1.
    pub fn objects(&self) -> u32
        ensures { result ≡ capped (length (block_objects self.now)) }
    {
        objects_of_block(self)
    }
}

/// As many objects as a list of declarations is long.
fn objects_of_declarations(length: usize) -> u32
    ensures { result ≡ capped length }
{
    u32::try_from(length).unwrap_or(u32::MAX)
}

#[cycle(objects)]
fn objects_of_block(block: &Block) -> u32
    ensures { result ≡ capped (length (block_objects block.now)) }
{
    let declared = objects_of_declarations(block.declarations.len());
    let stated = objects_of_statements(&block.statements);
    let handled = objects_of_handlers(&block.handlers);
    declared.saturating_add(stated).saturating_add(handled)
}

#[cycle(objects)]
fn objects_of_statements(statements: &[Statement]) -> u32
    ensures { result ≡ capped (length (all_objects (statements_of statements.now))) }
{
    let mut count = 0u32;
    for statement in statements {
        count = count.saturating_add(objects_of_statement(statement));
    }
    count
}

#[cycle(objects)]
fn objects_of_statement(statement: &Statement) -> u32
    ensures { result ≡ capped (length (objects statement.now)) }
{
    match &statement.kind {
        StatementKind::If(_, branches, otherwise) => objects_of_branches(branches, otherwise),
        StatementKind::Loop(_, statements) | StatementKind::While(_, _, statements) => {
            objects_of_statements(statements)
        }
        StatementKind::Case(_, _, alternatives) => objects_of_alternatives(alternatives),
        StatementKind::For(_, _, statements) => {
            objects_of_statements(statements).saturating_add(1)
        }
        StatementKind::Block(block) => objects_of_block(block),
        StatementKind::Null(_)
        | StatementKind::Assignment(..)
        | StatementKind::PartAssignment(..)
        | StatementKind::Call(..)
        | StatementKind::Exit(_)
        | StatementKind::ExitWhen(..)
        | StatementKind::Return(_)
        | StatementKind::ReturnValue(..)
        | StatementKind::Raise(..)
        | StatementKind::RaiseAgain(_) => 0,
    }
}

/// The objects of the branches of an if statement, with those of its else part.
#[cycle(objects)]
fn objects_of_branches(branches: &[Branch], otherwise: &[Statement]) -> u32
    ensures { result ≡ capped (length (branch_objects (branches_of branches.now (statements_of otherwise.now)))) }
{
    let mut count = 0u32;
    for branch in branches {
        count = count.saturating_add(objects_of_statements(&branch.statements));
    }
    count.saturating_add(objects_of_statements(otherwise))
}

/// The objects of the alternatives of a case statement.
#[cycle(objects)]
fn objects_of_alternatives(alternatives: &[Alternative]) -> u32
    ensures { result ≡ capped (length (alternative_objects (alternatives_of alternatives.now))) }
{
    let mut count = 0u32;
    for alternative in alternatives {
        count = count.saturating_add(objects_of_statements(&alternative.statements));
    }
    count
}

/// The objects of handlers.
#[cycle(objects)]
fn objects_of_handlers(handlers: &[Handler]) -> u32
    ensures { result ≡ capped (length (handler_objects (handlers_of handlers.now))) }
{
    let mut count = 0u32;
    for handler in handlers {
        count = count.saturating_add(objects_of_statements(&handler.statements));
    }
    count
}
