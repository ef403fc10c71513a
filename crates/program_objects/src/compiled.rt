//! What objects of legal units are.

ghost use Rattle.std.specs.Prelude.{◌≤◌, ℕ, List};
ghost use Rattle.ada_meaning.specs.Program.{Program};
ghost use Rattle.ada_syntax.specs.declared.unit.Unit.{Unit as LibraryUnit};
ghost use Rattle.program_objects.specs.Behaves.{Behaves, EndsInTime};
ghost use Rattle.program_objects.specs.Compiled.{IsCompiled};
ghost use Rattle.program_objects.specs.Made.{IsCompilable};
ghost use Rattle.program_objects.specs.Texts.{AreUnitsOf};
ghost use Rattle.object_format.specs.Read.{HasObject};
ghost use Rattle.object_format.specs.declared.object.Object.{Object};

use crate::program_laws::{legal_programs_are_of_their_text, legal_programs_have_few_copies};
use parsed_texts::units_of_files_are_counted;

/// Legal units (Ada RM 2012, 10.1) of at most 64 files can be compiled.
pub fn legal_units_are_compilable()
    ensures { (files : ℕ) (units : List LibraryUnit) (main : List ℕ) (p : Program) → files ≤ 64
        → AreUnitsOf files units main p → IsCompilable p }
{
    legal_programs_are_of_their_text();
    legal_programs_have_few_copies();
    units_of_files_are_counted();
}

/// The object that is compiled from such units passes the checks of objects and has a file, and it
/// does what their program means, in time.
pub fn compiled_objects_pass_and_behave()
    ensures passes { (files : ℕ) (units : List LibraryUnit) (main : List ℕ) (p : Program) (o : Object) → files ≤ 64
        → AreUnitsOf files units main p → IsCompiled units p o → HasObject o }
    ensures behaves { (files : ℕ) (units : List LibraryUnit) (main : List ℕ) (p : Program) (o : Object) → files ≤ 64
        → AreUnitsOf files units main p → IsCompiled units p o → Behaves p o }
    ensures in_time { (files : ℕ) (units : List LibraryUnit) (main : List ℕ) (p : Program) (o : Object) → files ≤ 64
        → AreUnitsOf files units main p → IsCompiled units p o → EndsInTime p o }
{
    legal_programs_are_of_their_text();
    legal_programs_have_few_copies();
    units_of_files_are_counted();
}
