//! Names after `end`, and modes (Ada RM 2012, 6.1, 6.3).

ghost use Rattle.std.specs.Prelude.{◌≡◌, IfOk};
ghost use Rattle.ada_tree.specs.Programs.{mode_of};
ghost use Rattle.ada_rules.specs.Subprograms as rules;
ghost use Rattle.specifications.specs.Profiles.{IsClosed};

use ada_entities::{Refusal, key, refused};
use ada_syntax::{Identifier, Mode as SourceMode};
use ada_tree::Mode;
use cov_base::Failure;
use std::alloc::{AllocError, Global};

/// The mode of a parameter: `in` may be left out (RM 6.1).
pub fn mode_of(mode: SourceMode) -> Mode
    ensures { mode_of result ≡ rules.mode_of mode }
{
    match mode {
        SourceMode::Default | SourceMode::In => Mode::In,
        SourceMode::Out => Mode::Out,
        SourceMode::InOut => Mode::InOut,
    }
}

/// Whether the name after `end` is that of the unit.
fn repeats(alloc: Global, name: &Identifier, end_name: &Identifier) -> Result<bool, AllocError>
    ensures { IfOk result (λ b. b ≡ rules.repeats name.now end_name.now) }
{
    let end_name = key(alloc, end_name)?;
    let name = key(alloc, name)?;
    Ok(end_name.as_slice() == name.as_slice())
}

/// The name after `end`, where there is one, repeats that of the unit (RM 6.3). Refused at the rules' own
/// place.
pub fn closed_by(
    alloc: Global,
    name: &Identifier,
    end_name: &Option<Identifier>,
) -> Result<(), Failure<Refusal>>
    ensures { IsClosed name.now end_name.now result }
{
    let Some(end_name) = end_name else {
        return Ok(());
    };
    if !repeats(alloc, name, end_name)? {
        return Err(refused(end_name.pos));
    }
    Ok(())
}
