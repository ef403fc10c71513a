//! Which subprograms are functions.

ghost use Rattle.std.specs.Prelude.{◌≡◌};
ghost use Rattle.ada_meaning.specs.Declared.{gives, some_gives, branch_gives, alternative_gives, handler_gives, block_gives};
ghost use Rattle.ada_tree.specs.View.{statements_of, branches_of, alternatives_of, handlers_of};

use crate::program::Subprogram;
use crate::statement::{Alternative, Block, Branch, Handler, Statement, StatementKind};

impl Subprogram {
    ghost use Rattle.std.specs.Prelude.{◌≡◌, List};
    ghost use Rattle.ada_meaning.specs.Declared.{is_function};
    ghost use Rattle.ada_meaning.specs.Types.{Subtype};
    ghost use Rattle.ada_tree.specs.Programs.{subprogram_of};

    /// Whether it is a function: its body has a return statement with a value, and that of a procedure has
    /// none (RM 6.5).
    pub fn is_function(&self) -> bool
        ensures { (types : List Subtype) → result ≡ is_function (subprogram_of types self.now) }
    {
        result_in_block(&self.body)
    }
}

#[cycle(results)]
fn result_in_block(block: &Block) -> bool
    ensures { result ≡ block_gives block.now }
{
    if result_in_statements(&block.statements) {
        return true;
    }
    result_in_handlers(&block.handlers)
}

#[cycle(results)]
fn result_in_statements(statements: &[Statement]) -> bool
    ensures { result ≡ some_gives (statements_of statements.now) }
{
    for statement in statements {
        if result_in_statement(statement) {
            return true;
        }
    }
    false
}

#[cycle(results)]
fn result_in_statement(statement: &Statement) -> bool
    ensures { result ≡ gives statement.now }
{
    match &statement.kind {
        StatementKind::If(_, branches, otherwise) => result_in_branches(branches, otherwise),
        StatementKind::Loop(_, statements)
        | StatementKind::While(_, _, statements)
        | StatementKind::For(_, _, statements) => result_in_statements(statements),
        StatementKind::Case(_, _, alternatives) => result_in_alternatives(alternatives),
        StatementKind::Block(block) => result_in_block(block),
        StatementKind::ReturnValue(..) => true,
        StatementKind::Null(_)
        | StatementKind::Assignment(..)
        | StatementKind::PartAssignment(..)
        | StatementKind::Call(..)
        | StatementKind::Exit(_)
        | StatementKind::ExitWhen(..)
        | StatementKind::Return(_)
        | StatementKind::Raise(..)
        | StatementKind::RaiseAgain(_) => false,
    }
}

/// Whether there is one in the branches of an if statement, or in its else part.
#[cycle(results)]
fn result_in_branches(branches: &[Branch], otherwise: &[Statement]) -> bool
    ensures { result ≡ branch_gives (branches_of branches.now (statements_of otherwise.now)) }
{
    for branch in branches {
        if result_in_statements(&branch.statements) {
            return true;
        }
    }
    result_in_statements(otherwise)
}

#[cycle(results)]
fn result_in_alternatives(alternatives: &[Alternative]) -> bool
    ensures { result ≡ alternative_gives (alternatives_of alternatives.now) }
{
    for alternative in alternatives {
        if result_in_statements(&alternative.statements) {
            return true;
        }
    }
    false
}

#[cycle(results)]
fn result_in_handlers(handlers: &[Handler]) -> bool
    ensures { result ≡ handler_gives (handlers_of handlers.now) }
{
    for handler in handlers {
        if result_in_statements(&handler.statements) {
            return true;
        }
    }
    false
}
