//! What the objects of sources are.

ghost use Rattle.std.specs.Prelude.{ℕ, ◌≤◌, List};
ghost use Rattle.std.specs.Str.{str_to_ascii_lowercase};
ghost use Rattle.ada_meaning.specs.Program.{Program};
ghost use Rattle.program_objects.specs.Built.{CanBeNamed, IsBuiltOf, AreLegal};
ghost use Rattle.program_objects.specs.Legal.{entries_for, IsLegal, AreRefused};
ghost use Rattle.program_objects.specs.Source.{IsObjectOf, IsCheap};
ghost use Rattle.cov_base.specs.declared.obligations.SourceFile.{SourceFile};
ghost use Rattle.generic_expand.specs.Limits.{node_count};
ghost use Rattle.object_format.specs.File.{closed_object};
ghost use Rattle.object_format.specs.Read.{IsObject, HasObject};
ghost use Rattle.object_format.specs.declared.object.Object.{Object};
ghost use Rattle.program_objects.specs.declared.fault.SourceFault.{SourceFault};

use crate::program_laws::{legal_programs_are_of_their_text, legal_programs_have_few_copies};
use parsed_texts::units_of_files_are_counted;

/// Sources that are a legal program are not refused, for no fault.
pub fn legal_sources_are_not_refused()
    ensures { (files : List SourceFile) (main : List ℕ) (p : Program) (fault : SourceFault) → IsLegal files main p → AreRefused files main fault → ⊥ }
{}

/// The object that is built of a legal program and its sources has a file. With the digest of its
/// file it is the sources' object, and cheap.
pub fn built_objects_are_of_their_sources()
    ensures written { (files : List SourceFile) (main : List ℕ) (p : Program) (nodes : ℕ) (o : Object) → CanBeNamed files
        → AreLegal files main p → IsBuiltOf files p nodes o → HasObject o }
    ensures object { (files : List SourceFile) (main : List ℕ) (p : Program) (nodes : ℕ) (o : Object) → CanBeNamed files
        → (legal : AreLegal files main p) → nodes ≤ node_count (entries_for legal.units (str_to_ascii_lowercase main))
        → IsBuiltOf files p nodes o → IsObject (closed_object o)
        → IsObjectOf files main p (closed_object o) × IsCheap files main p (closed_object o) }
{
    legal_programs_are_of_their_text();
    legal_programs_have_few_copies();
    units_of_files_are_counted();
}
