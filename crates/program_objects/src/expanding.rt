//! Which legal programs are within the limits on instances and nodes.

ghost use Rattle.std.specs.Prelude.{◌≡◌, IfOk, IfErr, OnOk};
ghost use Rattle.ada_tree.specs.Programs.{program_of};
ghost use Rattle.generic_expand.specs.Expanded.{copies_of};
ghost use Rattle.lower.specs.Standing.{AreTypesNamed};
ghost use Rattle.program_objects.specs.Expanding as spec;
ghost use Rattle.program_objects.specs.Expanding.{AreFew, PassesLimit};

use crate::fault::{SourceFault, Why};
use ada_tree::Program;
use cov_base::{Failure, Pos};
use generic_expand::{Copies, ExpandFault, expand};
use named_types::{are_types_named, named_types_stand};
use std::alloc::{AllocError, Global};

/// The copies of a program's bodies, where it is within the limits on instances and nodes.
#[tactic(auto, using(crate::proofs::Expanded::refusals))]
pub fn copies_of(alloc: Global, program: &Program) -> Result<Copies, Failure<SourceFault>>
    ensures copies { IfOk result (λ c. c.bodies ≡ copies_of (program_of program.now)) }
    ensures few { OnOk result (AreFew program.now.units) }
    ensures named { OnOk result (AreTypesNamed program.now) }
    ensures refused { IfErr result (PassesLimit program.now.units) }
{
    named(program)?;
    expand(alloc, program).map_err(too_large)
}

/// The types of a legal program stand where they are named, and the objects of each subprogram begin with
/// its parameters.
fn named(program: &Program) -> Result<(), AllocError>
    ensures { OnOk result (AreTypesNamed program.now) }
{
    named_types_stand();
    if are_types_named(program) {
        Ok(())
    } else {
        Err(AllocError)
    }
}

/// The answer for a program that is too large to be expanded.
fn too_large(failure: Failure<ExpandFault>) -> Failure<SourceFault>
    ensures { result ≡ spec.too_large failure }
{
    match failure {
        Failure::Fault(ExpandFault::TooBig { pos }) => fault_at(pos, Why::Limit),
        Failure::Fault(ExpandFault::TooMany { pos }) => fault_at(pos, Why::Limit),
        Failure::WantOfMemory => Failure::WantOfMemory,
    }
}

/// A fault for this reason at a place.
pub fn fault_at(pos: Pos, why: Why) -> Failure<SourceFault>
    ensures { result ≡ spec.failure_at pos why }
{
    Failure::Fault(SourceFault {
        file: pos.file,
        line: pos.line,
        col: pos.col,
        why,
    })
}
