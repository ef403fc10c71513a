//! Choices of handlers (Ada RM 2012, 11.2).

ghost use Rattle.std.specs.Prelude.{◌≡◌, option_map};
ghost use Rattle.ada_meaning.specs.Tree as tree;
ghost use Rattle.ada_tree.specs.View as view;
ghost use Rattle.ada_rules.specs.Plan.{answer_at};
ghost use Rattle.ada_rules.specs.Statements as rules;
ghost use Rattle.object_values.specs.program_walk.specs.Sites.{ComesTo};
ghost use Rattle.ada_syntax.specs.declared.statement.ExceptionChoice.TheVariants as taken;
ghost use Rattle.statement_parts.specs.Handlers.{may_be_others, others_choice, caught_in, all_caught_in, IsOthers};

use crate::exceptions::exception_of;
use crate::typing::typed;
use ada_entities::Refusal;
use ada_phrases::{Decisions, Step};
use ada_syntax::{ExceptionChoice as TextChoice, Name};
use ada_tree::{ExceptionChoice, ExceptionName};
use cov_base::{Failure, Pos, Seq};
use object_values::Site;
use std::alloc::Global;

/// Where a choice of a handler stands: `others` has to stand alone in the last handler.
#[derive(Clone, Copy)]
pub enum OthersPlace {
    AloneInLast,
    Elsewhere,
}

impl OthersPlace {
    /// `others`, where it may stand there.
    fn others(self) -> Option<ExceptionChoice>
        ensures { option_map view.exception_choice_of result ≡ others_choice (may_be_others self) }
    {
        match self {
            OthersPlace::AloneInLast => Some(ExceptionChoice::Others),
            OthersPlace::Elsewhere => None,
        }
    }
}

/// A choice with the name of an exception, where there is one.
fn named(exception: Option<ExceptionName>) -> Option<ExceptionChoice>
    ensures { option_map view.exception_choice_of result
        ≡ option_map tree.named_exception (option_map view.exception_of exception) }
{
    match exception {
        Some(name) => Some(ExceptionChoice::Exception(name)),
        None => None,
    }
}

/// A choice by name.
#[tactic(auto, using(crate::proofs::Ends::parts))]
fn caught_by_name(
    alloc: Global,
    site: &Site<'_>,
    decisions: &mut Decisions,
    place: OthersPlace,
    name: &Name,
) -> Result<ExceptionChoice, Failure<Refusal>>
    ensures { ComesTo caught_in site.now decisions.old decisions.new
        (λ env s. (rules.caught env s (may_be_others place) (taken.Named name.now)).answer) result }
{
    let denoted = site.denoted(alloc, decisions, name)?;
    let found = named(exception_of(&denoted));
    drop(denoted);
    typed(site.step, name.pos(), ExceptionChoice::Others, found)
}

/// `others`, which stands at this place in the text.
fn others(step: Step, pos: Pos, place: OthersPlace) -> Result<ExceptionChoice, Failure<Refusal>>
    ensures { IsOthers step pos place result }
{
    typed(step, pos, ExceptionChoice::Others, place.others())
}

/// A choice.
#[tactic(auto, using(crate::proofs::Ends::parts))]
fn caught(
    alloc: Global,
    site: &Site<'_>,
    decisions: &mut Decisions,
    place: OthersPlace,
    choice: &TextChoice,
) -> Result<ExceptionChoice, Failure<Refusal>>
    ensures { ComesTo caught_in site.now decisions.old decisions.new
        (λ env s. (rules.caught env s (may_be_others place) choice.now).answer) result }
{
    match choice {
        TextChoice::Named(name) => caught_by_name(alloc, site, decisions, place, name),
        TextChoice::Others(pos) => others(site.step, *pos, place),
    }
}

/// The choices of a handler, in order. Refused at the rules' own place.
#[tactic(auto, using(crate::proofs::Ends::parts))]
pub fn all_caught(
    alloc: Global,
    site: &Site<'_>,
    decisions: &mut Decisions,
    place: OthersPlace,
    choices: &[TextChoice],
) -> Result<Seq<ExceptionChoice>, Failure<Refusal>>
    ensures { (p : Pos) → ComesTo all_caught_in site.now decisions.old decisions.new
        (λ env s. (rules.all_caught env s (may_be_others place) p choices.now).answer) result }
{
    let mut found = Vec::new(alloc);
    for choice in choices {
        let taken = caught(alloc, site, decisions, place, choice)?;
        found.push(taken)?;
    }
    Ok(Seq::from(found))
}
