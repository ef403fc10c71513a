//! Choices of case statements (Ada RM 2012, 5.4).

ghost use Rattle.ada_syntax.specs.declared.statement.Choice.TheVariants as text;
ghost use Rattle.std.specs.Prelude.{◌≡◌};
ghost use Rattle.ada_tree.specs.View.{static_of, static_value_of};
ghost use Rattle.ada_rules.specs.Statements as rules;
ghost use Rattle.object_values.specs.program_walk.specs.Places.{ComesTo};
ghost use Rattle.statement_parts.specs.Selectors.{selector_in};
ghost use Rattle.statement_parts.specs.Choices.{choice_in, all_choices_in};

use crate::selectors::Selector;
use ada_demands::Test;
use ada_entities::Refusal;
use ada_syntax::{Bounds, Choice as TextChoice, Expr};
use ada_tree::{Choice, Owner, Static, StaticValue};
use cov_base::{Failure, Pos, Seq};
use object_values::{Accepted, Asks, Notes, Place};
use std::alloc::Global;

/// A value of the text as a static expression.
fn static_of(value: StaticValue) -> Static
    ensures { static_of result ≡ static_value_of value }
{
    Static::Value(Owner::Here, value)
}

/// A choice of one value.
#[tactic(auto, using(crate::proofs::Ends::parts))]
fn value_chosen(
    alloc: Global,
    place: &Place<'_>,
    notes: &mut Notes,
    selector: &Selector,
    expr: &Expr,
) -> Result<Choice, Failure<Refusal>>
    ensures { ComesTo choice_in place.now notes.old notes.new
        (λ k env s. (rules.chosen env s (selector_in k selector.now) (text.Value expr.now)).answer) result }
{
    let accepted = Accepted::Fitting(selector.of);
    let asks = Asks::Among(selector.values);
    let chosen = place.static_part(alloc, notes, accepted, asks, expr)?;
    Ok(Choice::Value(static_of(chosen.value)))
}

/// A choice of the values between two bounds, of which the low one is not above the high one.
#[tactic(auto, using(crate::proofs::Ends::parts))]
fn range_chosen(
    alloc: Global,
    place: &Place<'_>,
    notes: &mut Notes,
    selector: &Selector,
    bounds: &Bounds,
) -> Result<Choice, Failure<Refusal>>
    ensures { ComesTo choice_in place.now notes.old notes.new
        (λ k env s. (rules.chosen env s (selector_in k selector.now) (text.Range bounds.now)).answer) result }
{
    let accepted = Accepted::Fitting(selector.of);
    let asks = Asks::Among(selector.values);
    let low = place.static_part(alloc, notes, accepted, asks, &bounds.low)?;
    let high = place.static_part(alloc, notes, accepted, asks, &bounds.high)?;
    let test = Test::Ordered(low.value, high.value);
    notes.statics.demand(bounds.low.pos(), place.generic, test)?;
    Ok(Choice::Range(static_of(low.value), static_of(high.value)))
}

/// A choice: static, and among the values that are named.
#[tactic(auto, using(crate::proofs::Ends::parts))]
fn chosen(
    alloc: Global,
    place: &Place<'_>,
    notes: &mut Notes,
    selector: &Selector,
    choice: &TextChoice,
) -> Result<Choice, Failure<Refusal>>
    ensures { ComesTo choice_in place.now notes.old notes.new
        (λ k env s. (rules.chosen env s (selector_in k selector.now) choice.now).answer) result }
{
    match choice {
        TextChoice::Value(expr) => value_chosen(alloc, place, notes, selector, expr),
        TextChoice::Range(bounds) => range_chosen(alloc, place, notes, selector, bounds),
        TextChoice::Others(_) => Ok(Choice::Others),
    }
}

/// The choices of an alternative, in order. Refused at the rules' own place.
#[tactic(auto, using(crate::proofs::Ends::parts))]
pub fn all_chosen(
    alloc: Global,
    place: &Place<'_>,
    notes: &mut Notes,
    selector: &Selector,
    choices: &[TextChoice],
) -> Result<Seq<Choice>, Failure<Refusal>>
    ensures { (p : Pos) → ComesTo all_choices_in place.now notes.old notes.new
        (λ k env s. (rules.all_chosen env s (selector_in k selector.now) p choices.now).answer) result }
{
    let mut found = Vec::new(alloc);
    for choice in choices {
        let named = chosen(alloc, place, notes, selector, choice)?;
        found.push(named)?;
    }
    Ok(Seq::from(found))
}
