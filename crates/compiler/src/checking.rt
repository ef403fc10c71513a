//! Which sources are a program within the limits.

ghost use Rattle.std.specs.Prelude.{◌≡◌, ◌≤◌, length, None, IfOk, IfErr, OnOk};
ghost use Rattle.std.specs.Str.{str_to_ascii_lowercase};
ghost use Rattle.ada_rules.specs.Legal.{checked, legal};
ghost use Rattle.ada_tree.specs.Programs.{program_of};
ghost use Rattle.compiler.specs.Checking as spec;
ghost use Rattle.compiler.specs.Checking.{RefusesUnits};
ghost use Rattle.generic_expand.specs.Expanded.{copies_of};
ghost use Rattle.program_objects.specs.Standing.{AreTypesNamed};
ghost use Rattle.program_objects.specs.Built.{AreTyped};
ghost use Rattle.program_objects.specs.Exemptions.{exempt_regions};
ghost use Rattle.program_objects.specs.Legal.{AreProgram, RefusesFor};
ghost use Rattle.checker.specs.Wholes.{DeclaresTypes, HasEntries, whole_library};

use ada_parser::discard_units;
use ada_syntax::Unit;
use ada_tree::Program;
use checker::{CheckFault, a_refusal_is_of_a_broken_rule, check, discard_program};
use cov_base::{Failure, Pos, Region, Seq, SourceFile};
use generic_expand::Copies;
use program_objects::{Exemptions, ParsedSources, SourceFault, Why, copies_of, fault_at, units_of};
use std::alloc::Global;

/// A legal program, with the copies of its bodies and the exempt regions of its sources.
#[derive(Drop)]
pub(crate) struct LegalProgram {
    pub program: Program,
    pub copies: Copies,
    pub regions: Seq<Region>,
}

/// The legal program that sources are, whose main procedure has this name, where case does not
/// count. It has no more instances and nodes than an expanded program may have, and its exemption pragmas
/// pair.
pub(crate) fn legal_program(
    alloc: Global,
    files: &[SourceFile],
    main: &str,
) -> Result<LegalProgram, Failure<SourceFault>>
    requires { length files.now ≤ 64 }
    ensures typed { IfOk result (λ l. AreTyped files.now main.now l.program) }
    ensures named { IfOk result (λ l. AreTypesNamed l.program) }
    ensures copies { IfOk result (λ l. l.copies.bodies ≡ copies_of (program_of l.program)) }
    ensures regions { IfOk result (λ l. l.regions ≡ exempt_regions files.now) }
    ensures refused { IfErr result (RefusesFor files.now main.now) }
{
    let ParsedSources { units, exemptions } = units_of(alloc, files)?;
    let answer = small_program(alloc, units.as_slice(), main, exemptions);
    discard_units(units);
    answer
}

/// The program of units that pass the rules, and the limits on instances and nodes, where their exemption
/// pragmas pair.
fn small_program(
    alloc: Global,
    units: &[Unit],
    main: &str,
    exemptions: Exemptions,
) -> Result<LegalProgram, Failure<SourceFault>>
    ensures legal { IfOk result (λ l. AreProgram units.now (str_to_ascii_lowercase main.now) (program_of l.program)) }
    ensures types { IfOk result (λ l. DeclaresTypes (whole_library units.now) (str_to_ascii_lowercase main.now) l.program) }
    ensures named { IfOk result (λ l. AreTypesNamed l.program) }
    ensures copies { IfOk result (λ l. l.copies.bodies ≡ copies_of (program_of l.program)) }
    ensures regions { IfOk result (λ l. l.regions ≡ exemptions.regions) }
    ensures paired { OnOk result (exemptions.unpaired ≡ None) }
    ensures refused { IfErr result (RefusesUnits units.now (str_to_ascii_lowercase main.now) exemptions.unpaired) }
{
    let Exemptions { regions, unpaired } = exemptions;
    let program = checked_program(alloc, units, main, unpaired)?;
    match copies_of(alloc, &program) {
        Ok(copies) => Ok(LegalProgram {
            program,
            copies,
            regions,
        }),
        Err(failure) => {
            discard_program(program);
            Err(failure)
        }
    }
}

/// The program of units that pass the rules on names and types, and the limits on declared words and on
/// conditions. The first exemption pragma that pairs with none is told behind the rules and before the limits.
fn checked_program(
    alloc: Global,
    units: &[Unit],
    main: &str,
    unpaired: Option<Pos>,
) -> Result<Program, Failure<SourceFault>>
    ensures legal { IfOk result (λ p. checked units.now (str_to_ascii_lowercase main.now) ≡ legal (program_of p)) }
    ensures entries { IfOk result (HasEntries (whole_library units.now) (str_to_ascii_lowercase main.now)) }
    ensures types { IfOk result (DeclaresTypes (whole_library units.now) (str_to_ascii_lowercase main.now)) }
    ensures paired { OnOk result (unpaired ≡ None) }
    ensures refused { IfErr result (RefusesUnits units.now (str_to_ascii_lowercase main.now) unpaired) }
{
    a_refusal_is_of_a_broken_rule();
    match check(alloc, units, main) {
        Ok(program) => match unpaired {
            None => Ok(program),
            Some(pos) => {
                discard_program(program);
                Err(fault_at(pos, Why::Exemption))
            }
        },
        Err(failure) => Err(illegal(failure, unpaired)),
    }
}

/// The answer for units that are no legal program.
fn illegal(failure: Failure<CheckFault>, unpaired: Option<Pos>) -> Failure<SourceFault>
    ensures { result ≡ spec.illegal unpaired failure }
{
    match failure {
        Failure::Fault(CheckFault::Naming(pos)) => fault_at(pos, Why::Naming),
        Failure::Fault(CheckFault::Typing(pos)) => fault_at(pos, Why::Typing),
        Failure::Fault(CheckFault::Limit(pos)) => past_limit(pos, unpaired),
        Failure::WantOfMemory => Failure::WantOfMemory,
    }
}

/// The answer where a counted limit is passed, here: an exemption pragma that pairs with none is told before.
fn past_limit(pos: Pos, unpaired: Option<Pos>) -> Failure<SourceFault>
    ensures { result ≡ spec.past_limit unpaired pos }
{
    match unpaired {
        None => fault_at(pos, Why::Limit),
        Some(pragma) => fault_at(pragma, Why::Exemption),
    }
}
