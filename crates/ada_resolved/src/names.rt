//! What calls and names of exceptions come to in an instance (Ada RM 2012, 6.4, 11.1, 12.6).

ghost use Rattle.std.specs.Prelude.{◌≡◌, IfOk, map, option_map};
ghost use Rattle.ada_meaning.specs.Resolved as resolved;
ghost use Rattle.ada_meaning.specs.Resolved.{rank_of};
ghost use Rattle.ada_tree.specs.Programs.{formal_actual_of, program_of, raisable_of, target_of};
ghost use Rattle.ada_tree.specs.View.{callee_of, exception_of, predefined_of};

use crate::known::{Known, owner_in};
use ada_tree::{
    Callee, ExceptionName, FormalActual, PredefinedException, Program, Raisable, Target,
};
use cov_base::{number_after, numbered};
use std::alloc::AllocError;

/// What the actual for a formal subprogram comes to: `Test_IO.Put`, where there is none, which no legal
/// program has.
fn target_of(actual: Option<FormalActual>) -> Target
    ensures { target_of result ≡ resolved.formal_target (option_map formal_actual_of actual) }
{
    match actual {
        Some(FormalActual::Subprogram(target)) => target,
        _ => Target::TestPut,
    }
}

/// What a call comes to in the instance with this number, which is 0 in no generic (RM 6.4, 12.6).
pub fn target_in(program: &Program, instance: u32, callee: Callee) -> Target
    ensures { target_of result ≡ resolved.target_in (program_of program.now) instance (callee_of callee) }
{
    match callee {
        Callee::TestGet => Target::TestGet,
        Callee::TestPut => Target::TestPut,
        Callee::Subprogram(owner, number) => Target::Body(owner_in(instance, owner), number),
        Callee::Formal(place) => target_of(Known::of(program).formal(instance, place)),
    }
}

/// The number of a predefined exception.
fn predefined(exception: PredefinedException) -> u32
    ensures { result ≡ predefined_of exception }
{
    match exception {
        PredefinedException::ConstraintError => 1,
        PredefinedException::ProgramError => 2,
        PredefinedException::StorageError => 3,
        PredefinedException::EndError => 4,
    }
}

/// How many exceptions stand before the one of an instance and a declaration.
fn rank_of(exceptions: &[Raisable], instance: u32, declaration: u32) -> usize
    ensures { result ≡ rank_of instance declaration (map raisable_of exceptions.now) }
{
    let mut rank = 0;
    for exception in exceptions {
        if exception.instance == instance && exception.declaration == declaration {
            return rank;
        }
        rank += 1;
    }
    rank
}

/// The number of an exception in the instance with this number, which is 0 in no generic (RM 11.1). A list
/// of 2 ^ 32 exceptions is too large for memory.
pub fn exception_in(
    program: &Program,
    instance: u32,
    name: ExceptionName,
) -> Result<u32, AllocError>
    ensures { IfOk result (λ x. x ≡ resolved.exception_in (program_of program.now) instance (exception_of name)) }
{
    match name {
        ExceptionName::Predefined(exception) => Ok(predefined(exception)),
        ExceptionName::Declared(owner, declaration) => {
            let exceptions = program.exceptions.as_slice();
            let rank = rank_of(exceptions, owner_in(instance, owner), declaration);
            number_after(numbered(rank)?, 5)
        }
    }
}
