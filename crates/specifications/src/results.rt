//! Results of functions (Ada RM 2012, 6.1).

ghost use Rattle.std.specs.Prelude.{◌≡◌, option_map};
ghost use Rattle.std.specs.List.{list_all};
ghost use Rattle.ada_meaning.specs.Types.{here};
ghost use Rattle.ada_tree.specs.Programs.{mode_of};
ghost use Rattle.ada_rules.specs.Subprograms as rules;
ghost use Rattle.ada_entities.specs.EntityViews.{Tables};
ghost use Rattle.ada_entities.specs.RoutineViews.{result_of};
ghost use Rattle.specifications.specs.Profiles.{parameters_of};
ghost use Rattle.program_walk.specs.Marks.{marked_of};
ghost use Rattle.specifications.specs.Results.{function_mark, IsResult, ComesToResult};

use ada_entities::{Parameter, Refusal, ResultMark, refused};
use ada_phrases::{Decisions, Step};
use ada_syntax::Name;
use ada_tree::Mode;
use cov_base::{Failure, Pos};
use program_walk::{Marked, Site};
use std::alloc::Global;

/// Whether a mode is `in`.
fn is_in(mode: Mode) -> bool
    ensures { result ≡ rules.is_in (mode_of mode) }
{
    match mode {
        Mode::In => true,
        Mode::Out | Mode::InOut => false,
    }
}

/// Whether all parameters are of mode `in`.
fn are_in(parameters: &[Parameter]) -> bool
    ensures { result ≡ list_all (λ q. rules.is_in (mode_of q.mode)) parameters.now }
{
    parameters.iter().all(|parameter| is_in(parameter.mode))
}

/// Whether a function may have these parameters and this result: all of mode `in`, and a scalar one.
fn is_function_profile(parameters: &[Parameter], marked: Marked) -> bool
    ensures { (k : Tables) → result
        ≡ rules.is_function_profile (parameters_of k here parameters.now) (marked_of k marked) }
{
    are_in(parameters) && marked.subtype.of.is_scalar()
}

/// The result of a function with these parameters, where it may be one.
fn function_result(parameters: &[Parameter], marked: Marked) -> Option<ResultMark>
    ensures { (k : Tables) → option_map (result_of k.types) result
        ≡ function_mark (parameters_of k here parameters.now) (marked_of k marked) }
{
    if is_function_profile(parameters, marked) {
        Some(ResultMark {
            mark: marked.identity,
            subtype: marked.subtype,
        })
    } else {
        None
    }
}

/// The result that a mark names, in a specification that begins at this place; the step of names goes on
/// with any.
fn result_mark(
    step: Step,
    pos: Pos,
    parameters: &[Parameter],
    marked: Marked,
) -> Result<ResultMark, Failure<Refusal>>
    ensures { IsResult step pos parameters.now marked result }
{
    match step {
        Step::Naming => Ok(ResultMark {
            mark: marked.identity,
            subtype: marked.subtype,
        }),
        Step::Typing => function_result(parameters, marked).ok_or(refused(pos)),
    }
}

/// The result of a subprogram with these parameters, whose specification begins at this place; a procedure
/// has none. Refused at the rules' own place.
#[tactic(auto, using(program_walk::proofs::GoingLaws::parts))]
pub(crate) fn result(
    alloc: Global,
    site: &Site<'_>,
    decisions: &mut Decisions,
    pos: Pos,
    parameters: &[Parameter],
    name: &Option<Name>,
) -> Result<Option<ResultMark>, Failure<Refusal>>
    ensures { ComesToResult site.now decisions.old decisions.new pos parameters.now name.now result }
{
    let Some(name) = name else {
        return Ok(None);
    };
    let marked = site.mark(alloc, decisions, name)?;
    let mark = result_mark(site.step, pos, parameters, marked)?;
    Ok(Some(mark))
}
