//! What a body takes of its profile (Ada RM 2012, 6.1, 6.5).

ghost use Rattle.std.specs.Prelude.{◌≡◌, IfOk};
ghost use Rattle.ada_meaning.specs.Types.{here};
ghost use Rattle.ada_rules.specs.Subprograms.{returning_of as given_of};
ghost use Rattle.ada_entities.specs.EntityViews.{Tables};
ghost use Rattle.specifications.specs.Profiles.{results_of};
ghost use Rattle.program_walk.specs.Walks.{returning_of};
ghost use Rattle.specifications.specs.Typed.{AreTyped, IsHeadOf};

use crate::conformance::Profile;
use crate::objects::tree_subtype;
use ada_entities::{Parameter, ResultMark};
use ada_tree::Parameter as TreeParameter;
use cov_base::number_behind;
use program_walk::{Returning, Symbols};
use std::alloc::{AllocError, Global};

/// The parameters of a body as the typed program has them, and what its `return` gives.
#[derive(Drop)]
pub struct Head {
    pub parameters: Vec<TreeParameter>,
    pub returning: Returning,
}

/// Parameters as the typed program has them: they are the first objects of their subprogram.
fn typed_parameters(
    alloc: Global,
    symbols: &Symbols,
    parameters: &[Parameter],
) -> Result<Vec<TreeParameter>, AllocError>
    ensures { IfOk result (AreTyped symbols.now parameters.now) }
{
    let mut typed = Vec::new(alloc);
    let mut number = 0;
    for parameter in parameters {
        let subtype = tree_subtype(symbols, parameter.subtype)?;
        typed.push(TreeParameter {
            number,
            mode: parameter.mode,
            subtype,
        })?;
        number = number_behind(number)?;
    }
    Ok(typed)
}

/// What `return` gives in the body of a subprogram with this result (RM 6.5).
fn returning_of(mark: Option<ResultMark>) -> Returning
    ensures { (k : Tables) → given_of (results_of k here mark) ≡ returning_of k result }
{
    match mark {
        Some(mark) => Returning::Value(mark.subtype),
        None => Returning::Nothing,
    }
}

/// What a body takes of its profile. A subtype that leads nowhere has no memory.
pub fn head_of(alloc: Global, symbols: &Symbols, profile: &Profile) -> Result<Head, AllocError>
    ensures { IfOk result (IsHeadOf symbols.now profile.now) }
{
    let parameters = typed_parameters(alloc, symbols, profile.parameters.as_slice())?;
    Ok(Head {
        parameters,
        returning: returning_of(profile.result),
    })
}
