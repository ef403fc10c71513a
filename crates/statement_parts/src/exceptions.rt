//! Exceptions by name (Ada RM 2012, 11.2, 11.3).

ghost use Rattle.std.specs.Prelude.{◌≡◌, option_map};
ghost use Rattle.ada_meaning.specs.Tree as tree;
ghost use Rattle.ada_tree.specs.View as view;
ghost use Rattle.ada_tree.specs.View.{label_of};
ghost use Rattle.ada_rules.specs.Statements as rules;
ghost use Rattle.ada_entities.specs.EntityViews.{Tables};
ghost use Rattle.ada_phrases.specs.DenotedView.{denotes};
ghost use Rattle.statement_parts.specs.Simple.{raising, in_tree, States};

use crate::typing::{null_statement, typed};
use ada_entities::Refusal;
use ada_phrases::{Decisions, Denoted};
use ada_syntax::Name;
use ada_tree::{ExceptionName, Label, Statement, StatementKind};
use cov_base::Failure;
use object_values::Site;
use std::alloc::Global;

/// The exception that a name denotes, where it denotes one.
pub(crate) fn exception_of(denoted: &Denoted) -> Option<ExceptionName>
    ensures { (k : Tables) → option_map view.exception_of result ≡ rules.exception_of (denotes k denoted.now) }
{
    match denoted {
        Denoted::Exception(name) => Some(*name),
        Denoted::Mark(_, _)
        | Denoted::Value(_)
        | Denoted::Variable(_)
        | Denoted::Routine(_)
        | Denoted::Call(_, _)
        | Denoted::Unit(_)
        | Denoted::TestIo
        | Denoted::Thing => None,
    }
}

/// A raise statement with the name of an exception, where there is one.
fn raised(label: Label, exception: Option<ExceptionName>) -> Option<Statement>
    ensures { (k : Tables) → option_map (in_tree k) result
        ≡ option_map (tree.raise_statement (label_of label)) (option_map view.exception_of exception) }
{
    match exception {
        Some(name) => Some(Statement {
            kind: StatementKind::Raise(label, name),
        }),
        None => None,
    }
}

/// A raise statement with a name, behind its label (RM 11.3). Refused at the rules' own place.
#[tactic(auto, using(crate::proofs::Ends::parts))]
pub fn raise(
    alloc: Global,
    site: &Site<'_>,
    decisions: &mut Decisions,
    label: Label,
    name: &Name,
) -> Result<Statement, Failure<Refusal>>
    ensures { States site.now decisions.old decisions.new label (λ l env s. raising l env s name.now) result }
{
    let denoted = site.denoted(alloc, decisions, name)?;
    let found = raised(label, exception_of(&denoted));
    drop(denoted);
    typed(site.step, label.place, null_statement(label), found)
}
