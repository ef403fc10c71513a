//! Conformance of a body to its declaration (Ada RM 2012, 6.3.1).

ghost use Rattle.std.specs.Prelude.{◌≡◌, option_map};
ghost use Rattle.ada_meaning.specs.Types.{here};
ghost use Rattle.ada_tree.specs.Programs.{mode_of};
ghost use Rattle.ada_tree.specs.View.{owner_of};
ghost use Rattle.ada_rules.specs.Subprograms as rules;
ghost use Rattle.ada_entities.specs.Views.{identity_of, identity_by};
ghost use Rattle.ada_entities.specs.EntityViews.{Tables, routine_by};
ghost use Rattle.ada_entities.specs.RoutineViews.{routine_in};
ghost use Rattle.specifications.specs.Profiles.{parameter_seen, parameters_of, results_of, IsConformity, IsConforming};

use ada_entities::{Identity, Parameter, Refusal, ResultMark, Routine, RoutineName, refused};
use ada_tree::{Mode, Owner};
use cov_base::{Failure, Pos, Seq};
use program_walk::Symbols;
use std::alloc::AllocError;

/// The parameters of a subprogram, and of a function its result (RM 6.1).
#[derive(Drop)]
pub struct Profile {
    pub parameters: Seq<Parameter>,
    pub result: Option<ResultMark>,
}

/// Whether two modes are one.
pub(crate) fn same_mode(left: Mode, right: Mode) -> bool
    ensures { result ≡ rules.same_mode (mode_of left) (mode_of right) }
{
    match (left, right) {
        (Mode::In, Mode::In) | (Mode::Out, Mode::Out) | (Mode::InOut, Mode::InOut) => true,
        _ => false,
    }
}

/// Whether marks name one subtype, or neither names one.
fn same_mark(declared: Option<Identity>, given: Option<Identity>) -> bool
    ensures { result ≡ rules.same_mark (option_map identity_of declared) (option_map identity_of given) }
{
    match (declared, given) {
        (Some(declared), Some(given)) => declared.is_same(given),
        (None, None) => true,
        _ => false,
    }
}

/// Which subtype a mark names, as it is seen.
fn mark_seen(mark: Option<Identity>, seen: Owner) -> Option<Identity>
    ensures { option_map identity_of result ≡ option_map (identity_by (owner_of seen)) (option_map identity_of mark) }
{
    match seen {
        Owner::Here => mark,
        Owner::Instance(instance) => match mark {
            Some(identity) => Some(identity.seen(instance)),
            None => None,
        },
    }
}

/// Whether a parameter of a declaration, as it is seen, is one of its body.
fn same_parameter(declared: &Parameter, seen: Owner, given: &Parameter) -> bool
    ensures { (k : Tables) → result
        ≡ rules.same_parameter (parameter_seen k (owner_of seen) declared.now) (parameter_seen k here given.now) }
{
    declared.name.as_slice() == given.name.as_slice()
        && same_mode(declared.mode, given.mode)
        && same_mark(mark_seen(declared.mark, seen), given.mark)
}

/// Whether the parameters of a declaration, as it is seen, are those of its body.
fn same_parameters(declared: &[Parameter], seen: Owner, given: &[Parameter]) -> bool
    ensures { (k : Tables) → result
        ≡ rules.same_parameters (parameters_of k (owner_of seen) declared.now) (parameters_of k here given.now) }
{
    for (place, parameter) in declared.iter().enumerate() {
        match given.get(place) {
            Some(other) => {
                if !same_parameter(parameter, seen, other) {
                    return false;
                }
            }
            None => return false,
        }
    }
    given.get(declared.len()).is_none()
}

/// Whether the result of a declaration, as it is seen, is that of its body.
fn same_result(declared: Option<ResultMark>, seen: Owner, given: Option<ResultMark>) -> bool
    ensures { (k : Tables) → result
        ≡ rules.same_result (results_of k (owner_of seen) declared) (results_of k here given) }
{
    match declared {
        Some(declared) => match given {
            Some(given) => same_mark(mark_seen(declared.mark, seen), given.mark),
            None => false,
        },
        None => given.is_none(),
    }
}

/// Whether a body with this profile conforms to a declaration, as it is seen.
fn conforms(declared: &Routine, seen: Owner, profile: &Profile) -> bool
    ensures { (k : Tables)
        → IsConformity k (routine_by k (owner_of seen) (routine_in k declared.now)) profile.now result }
{
    let parameters = profile.parameters.as_slice();
    same_parameters(declared.parameters.as_slice(), seen, parameters)
        && same_result(declared.result, seen, profile.result)
}

/// A body with this profile, which begins at this place, conforms to the declaration that it completes,
/// if it completes one (RM 6.3.1). Refused at the rules' own place.
pub fn conforming(
    symbols: &Symbols,
    pos: Pos,
    declaration: Option<RoutineName>,
    profile: &Profile,
) -> Result<(), Failure<Refusal>>
    ensures { IsConforming symbols.now pos declaration profile.now result }
{
    let Some(declaration) = declaration else {
        return Ok(());
    };
    let Some(declared) = symbols.subprogram(declaration.number) else {
        return Err(Failure::WantOfMemory);
    };
    if !conforms(declared, declaration.seen, profile) {
        return Err(refused(pos));
    }
    Ok(())
}
