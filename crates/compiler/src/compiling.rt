//! From source text to an object.

ghost use Rattle.std.specs.Prelude.{◌≡◌, ◌<◌, ◌≤◌, All, IfOk, IfErr, length};
ghost use Rattle.ada_meaning.specs.Program.{Program};
ghost use Rattle.object_format.specs.File.{object_bytes};
ghost use Rattle.program_objects.specs.Built.{HasPlainName};
ghost use Rattle.program_objects.specs.Legal.{RefusesFor};
ghost use Rattle.program_objects.specs.Source.{IsObjectOf, IsCheap};

use crate::checking::legal_program;
use checker::discard_program;
use cov_base::{Failure, SourceFile};
use program_objects::{
    Compiled, SourceFault, built_objects_are_of_their_sources, closed, legal_programs_are_light,
    legal_programs_can_be_laid, legal_units_are_compilable, object_of,
};
use std::alloc::Global;

/// Compiles the program whose main procedure has this name, where case does not count, from its
/// source files (Ada RM 2012, 10.1): the object that is made is the one of the program that the
/// sources are. Where they are none, the fault is the first one.
pub fn compile(
    alloc: Global,
    files: &[SourceFile],
    main: &str,
) -> Result<Compiled, Failure<SourceFault>>
    requires many { (0 < length files.now) × (length files.now ≤ 64) }
    requires names { All HasPlainName files.now }
    ensures object { IfOk result (λ c. (p : Program) × IsObjectOf files.now main.now p c.object × IsCheap files.now main.now p c.object) }
    ensures file { IfOk result (λ c. c.file ≡ object_bytes c.object) }
    ensures refused { IfErr result (RefusesFor files.now main.now) }
{
    legal_units_are_compilable();
    legal_programs_are_light();
    legal_programs_can_be_laid();
    built_objects_are_of_their_sources();
    let legal = legal_program(alloc, files, main)?;
    let regions = legal.regions;
    let object = object_of(alloc, files, &legal.program, &legal.copies, regions);
    discard_program(legal.program);
    Ok(closed(alloc, object?)?)
}
