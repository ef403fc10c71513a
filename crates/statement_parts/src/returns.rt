//! Return statements (Ada RM 2012, 6.5).

ghost use Rattle.std.specs.Prelude.{◌≡◌, option_map};
ghost use Rattle.ada_tree.specs.View.{label_of};
ghost use Rattle.ada_rules.specs.Statements as rules;
ghost use Rattle.ada_entities.specs.EntityViews.{Tables};
ghost use Rattle.statement_parts.specs.Simple.{in_tree};
ghost use Rattle.statement_parts.specs.Returns.{returning_of, returned_by, IsReturn, IsReturnOfValue};

use crate::typing::{null_statement, typed};
use ada_entities::{Refusal, Subtype};
use ada_judged::{Form, Kind};
use ada_phrases::{Decisions, Role, Step};
use ada_syntax::Expr;
use ada_tree::{Label, Statement, StatementKind};
use cov_base::Failure;
use object_values::Site;
use std::alloc::Global;

/// `return;`, where the subprogram has no result.
fn returned(label: Label, given: Option<Subtype>) -> Option<Statement>
    ensures { (k : Tables) → option_map (in_tree k) result
        ≡ rules.returned (label_of label) (returning_of k.types given) }
{
    match given {
        Some(_) => None,
        None => Some(Statement {
            kind: StatementKind::Return(label),
        }),
    }
}

/// `return;` behind its label, in a subprogram whose result is of this subtype, if it has one. Refused
/// at the rules' own place.
pub fn return_nothing(
    step: Step,
    label: Label,
    given: Option<Subtype>,
) -> Result<Statement, Failure<Refusal>>
    ensures { IsReturn step label given result }
{
    typed(
        step,
        label.place,
        null_statement(label),
        returned(label, given),
    )
}

/// The return of a value, where it is of the result's type.
fn value_returned(label: Label, given: Option<Subtype>, kind: Kind, form: Form) -> Option<Statement>
    ensures { (k : Tables) → option_map (in_tree k) result ≡ returned_by k label given kind form }
{
    let Some(subtype) = given else {
        drop(form);
        return None;
    };
    if !kind.fits(subtype.of) {
        drop(form);
        return None;
    }
    Some(Statement {
        kind: StatementKind::ReturnValue(label, subtype.range, form.into_expr()),
    })
}

/// The return of a value, behind its label, likewise.
#[tactic(auto, using(crate::proofs::Ends::parts))]
pub fn return_value(
    alloc: Global,
    site: &Site<'_>,
    decisions: &mut Decisions,
    label: Label,
    given: Option<Subtype>,
    expr: &Expr,
) -> Result<Statement, Failure<Refusal>>
    ensures { IsReturnOfValue site.now decisions.old decisions.new label given expr.now result }
{
    let value = site.judged(alloc, Role::Itself, decisions, expr)?;
    let found = value_returned(label, given, value.kind, value.form);
    typed(site.step, label.place, null_statement(label), found)
}
