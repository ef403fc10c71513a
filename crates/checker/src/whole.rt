//! A whole program: its typed form, or why it is refused (Ada RM 2012, 10.2).

ghost use Rattle.std.specs.Prelude.{◌≡◌, IfOk, IfErr};
ghost use Rattle.std.specs.Str.{str_to_ascii_lowercase};
ghost use Rattle.ada_rules.specs.Legal.{checked, legal};
ghost use Rattle.ada_tree.specs.Programs.{program_of};
ghost use Rattle.program_weights.specs.Wholes.{HasEntries, DeclaresTypes, whole_library};
ghost use Rattle.walked_program.specs.Checking.{Refuses, HasEntriesIn, DeclaresTypesIn, ComesToNamed, ComesToTyped, ComesToVerdict};

use crate::steps::judged;
use ada_library::Library;
use ada_phrases::Step;
use ada_syntax::Unit;
use ada_tree::Program;
use cov_base::Failure;
use std::alloc::Global;
use walked_program::{CheckFault, WholeWalk, discard_walk, naming, program, typing};

/// The rules on names, over all units. What their walk leaves is wanted no longer.
fn named(
    alloc: Global,
    library: &Library,
    units: &[Unit],
    main: &[u8],
) -> Result<(), Failure<CheckFault>>
    ensures { ComesToNamed library.now units.now main.now result }
{
    match judged(alloc, Step::Naming, library, units, main) {
        Ok(whole) => {
            discard_walk(whole);
            Ok(())
        }
        Err(failure) => Err(naming(failure)),
    }
}

/// The rules on types, over all units, but for those on static values.
fn typed(
    alloc: Global,
    library: &Library,
    units: &[Unit],
    main: &[u8],
) -> Result<WholeWalk, Failure<CheckFault>>
    ensures { ComesToTyped library.now units.now main.now result }
{
    match judged(alloc, Step::Typing, library, units, main) {
        Ok(whole) => Ok(whole),
        Err(failure) => Err(typing(failure)),
    }
}

/// All of the rules' steps, in their order.
#[tactic(auto, using(walked_program::proofs::CheckedLaws::refusals))]
fn verdict(
    alloc: Global,
    library: &Library,
    units: &[Unit],
    main: &[u8],
) -> Result<Program, Failure<CheckFault>>
    ensures verdict { ComesToVerdict library.now units.now main.now result }
    ensures units { IfOk result (HasEntriesIn library.now units.now main.now) }
    ensures types { IfOk result (DeclaresTypesIn library.now units.now main.now) }
{
    named(alloc, library, units, main)?;
    let whole = typed(alloc, library, units, main)?;
    program(alloc, library, whole, units, main)
}

/// The typed program of units whose main unit has this name in lower case.
#[tactic(auto, using(walked_program::proofs::CheckedLaws::refusals))]
fn check_lower(alloc: Global, units: &[Unit], main: &[u8]) -> Result<Program, Failure<CheckFault>>
    ensures legal { IfOk result (λ p. checked units.now main.now ≡ legal (program_of p)) }
    ensures units { IfOk result (HasEntries (whole_library units.now) main.now) }
    ensures types { IfOk result (DeclaresTypes (whole_library units.now) main.now) }
    ensures refused { IfErr result (Refuses units.now main.now) }
{
    let library = Library::new(alloc, units)?;
    verdict(alloc, &library, units, main)
}

/// The typed program of units of the whole language, or the first of the rules' steps that refuses them,
/// and where. The case of the main unit's name does not count.
#[tactic(auto, using(walked_program::proofs::CheckedLaws::refusals))]
pub fn check(alloc: Global, units: &[Unit], main: &str) -> Result<Program, Failure<CheckFault>>
    ensures legal { IfOk result (λ p. checked units.now (str_to_ascii_lowercase main.now) ≡ legal (program_of p)) }
    ensures units { IfOk result (HasEntries (whole_library units.now) (str_to_ascii_lowercase main.now)) }
    ensures types { IfOk result (DeclaresTypes (whole_library units.now) (str_to_ascii_lowercase main.now)) }
    ensures refused { IfErr result (Refuses units.now (str_to_ascii_lowercase main.now)) }
{
    let lower = main.as_bytes().to_ascii_lowercase(alloc)?;
    check_lower(alloc, units, lower.as_slice())
}
