//! Case statements behind their alternatives (Ada RM 2012, 5.4).

ghost use Rattle.std.specs.Prelude.{◌≡◌, map, IfOk};
ghost use Rattle.ada_tree.specs.View.{choice_of};
ghost use Rattle.ada_rules.specs.Statements as rules;
ghost use Rattle.ada_entities.specs.EntityViews.{Tables};
ghost use Rattle.ada_demands.specs.DemandViews.{is_present};
ghost use Rattle.statement_parts.specs.Cases.{arms_in, IsCovering, IsCase, IsCaseOf};

use crate::handing::paired;
use crate::selectors::Selector;
use crate::typing::null_statement;
use ada_demands::{Others, Statics, Test};
use ada_entities::{Refusal, Values, refused};
use ada_phrases::Step;
use ada_tree::{Alternative, Choice, Label, Statement, StatementKind};
use cov_base::{Failure, Pos, Seq};
use object_values::Place;
use std::alloc::{AllocError, Global};

/// Whether a choice is `others`.
fn is_others(choice: Choice) -> bool
    ensures { result ≡ rules.is_others (choice_of choice) }
{
    matches!(choice, Choice::Others)
}

/// Whether one of these choices is `others`.
fn others_among(choices: &[Choice]) -> Others
    ensures { is_present result ≡ rules.has_others (map choice_of choices.now) }
{
    for choice in choices {
        if is_others(*choice) {
            return Others::Present;
        }
    }
    Others::Absent
}

/// Whether `others`, if it is there, stands alone in the last alternative.
fn ends_with_others(alternatives: &[Alternative]) -> bool
    ensures { (k : Tables) → result ≡ rules.ends_with_others (arms_in k alternatives.now) }
{
    for (place, alternative) in alternatives.iter().enumerate() {
        if let Others::Present = others_among(alternative.choices.as_slice()) {
            return alternative.choices.len() == 1 && place + 1 == alternatives.len();
        }
    }
    true
}

/// The choices of all alternatives, in order.
fn choices_in(alloc: Global, alternatives: &[Alternative]) -> Result<Seq<Choice>, AllocError>
    ensures { IfOk result (λ cs. (k : Tables) → map choice_of cs ≡ rules.choices_in (arms_in k alternatives.now)) }
{
    let mut choices = Vec::new(alloc);
    for alternative in alternatives {
        choices.extend_from_slice(alternative.choices.as_slice())?;
    }
    Ok(Seq::from(choices))
}

/// Demands that the alternatives of a case statement, which begins at this place, name each value once.
#[tactic(auto, using(crate::proofs::Ends::parts))]
fn cover(
    alloc: Global,
    place: &Place<'_>,
    statics: &mut Statics,
    pos: Pos,
    values: Values,
    alternatives: &[Alternative],
) -> Result<(), Failure<Refusal>>
    ensures { IsCovering place.now statics.old statics.new pos values alternatives.now result }
{
    if !ends_with_others(alternatives) {
        return Err(refused(pos));
    }
    let choices = choices_in(alloc, alternatives)?;
    let others = others_among(choices.as_slice());
    let test = Test::Covers(values, others, choices);
    statics.demand(pos, place.generic, test)?;
    Ok(())
}

/// A case statement with these alternatives, behind its label, in the step of types: each value is named
/// once.
#[tactic(auto, using(crate::proofs::Ends::parts))]
fn case_of(
    alloc: Global,
    place: &Place<'_>,
    statics: &mut Statics,
    label: Label,
    selector: Selector,
    alternatives: Vec<Alternative>,
) -> Result<Statement, Failure<Refusal>>
    ensures { IsCaseOf place.now statics.old statics.new label selector alternatives.items result }
{
    let arms = alternatives.as_slice();
    let covered = cover(alloc, place, statics, label.place, selector.values, arms);
    let kind = StatementKind::Case(label, selector.expr, alternatives);
    let (kind, ()) = paired(kind, covered)?;
    Ok(Statement { kind })
}

/// A case statement with these alternatives, behind its label. Refused at the rules' own place.
#[tactic(auto, using(crate::proofs::Ends::parts))]
pub fn case_statement(
    alloc: Global,
    place: &Place<'_>,
    statics: &mut Statics,
    label: Label,
    selector: Selector,
    alternatives: Vec<Alternative>,
) -> Result<Statement, Failure<Refusal>>
    ensures { IsCase place.now statics.old statics.new label selector alternatives.items result }
{
    match place.site.step {
        Step::Naming => {
            drop((selector, alternatives));
            Ok(null_statement(label))
        }
        Step::Typing => case_of(alloc, place, statics, label, selector, alternatives),
    }
}
