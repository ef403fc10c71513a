//! Rules on types, and what the step of names goes on with.

ghost use Rattle.std.specs.Prelude.{◌≡◌};
ghost use Rattle.ada_meaning.specs.Tree as tree;
ghost use Rattle.ada_tree.specs.View.{label_of};
ghost use Rattle.ada_phrases.specs.Answers.{typed_answer};

use ada_entities::{Refusal, refused};
use ada_phrases::Step;
use ada_tree::{Label, Statement, StatementKind};
use cov_base::{Failure, Pos};

/// What a rule on types gives of a construct that begins at this place. The step of names goes on with
/// something in place of it.
pub fn typed<T: Drop>(
    step: Step,
    pos: Pos,
    anything: T,
    found: Option<T>,
) -> Result<T, Failure<Refusal>>
    ensures { result ≡ typed_answer step pos anything found }
{
    match step {
        Step::Naming => Ok(anything),
        Step::Typing => found.ok_or(refused(pos)),
    }
}

/// `null;`, which also stands for any statement in the step of names (RM 5.1).
pub fn null_statement(label: Label) -> Statement
    ensures { result ≡ tree.null_statement (label_of label) }
{
    Statement {
        kind: StatementKind::Null(label),
    }
}
