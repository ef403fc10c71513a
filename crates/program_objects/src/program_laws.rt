//! What legal programs are like: laws over the typed program of units (Ada RM 2012, 10.1, 10.2). The functions
//! here do nothing: each carries a law of the definitions as its contract.

ghost use Rattle.std.specs.Prelude.{◌≡◌, ◌≤◌, ℕ, List};
ghost use Rattle.ada_meaning.specs.Program.{Program};
ghost use Rattle.ada_syntax.specs.declared.unit.Unit.{Unit as LibraryUnit};
ghost use Rattle.ada_tree.specs.declared.program.Program.{Program as TypedProgram};
ghost use Rattle.ada_tree.specs.Programs.{program_of};
ghost use Rattle.generic_expand.specs.Limits.{node_count};
ghost use Rattle.program_weights.specs.Wholes.{DeclaresTypes, whole_library};
ghost use Rattle.program_objects.specs.Kernels.{CanBeLaid, nodes_of};
ghost use Rattle.program_objects.specs.Legal.{entries_for};
ghost use Rattle.program_objects.specs.Texts.{AreUnitsOf, HasFewCopies, HasSizes, IsOfText};
ghost use Rattle.lower.specs.Standing.{AreTypesNamed};

use legal_programs::{obligations_are_numbered, obligations_stand_in_the_text};
use parsed_texts::{
    instances_are_those_that_units_are, legal_programs_are_well_formed,
    library_words_are_within_limits, parts_of_each_generic_have_tokens, words_are_within_limits,
};

/// A legal program stands in the text of its units.
pub fn legal_programs_are_of_their_text()
    ensures { (files : ℕ) (units : List LibraryUnit) (main : List ℕ) (p : Program) → AreUnitsOf files units main p
        → IsOfText units p }
{
    obligations_stand_in_the_text();
    obligations_are_numbered();
}

/// Its copies are within the limits on instances and on nodes.
pub fn legal_programs_have_few_copies()
    ensures { (files : ℕ) (units : List LibraryUnit) (main : List ℕ) (p : Program) → AreUnitsOf files units main p
        → HasFewCopies p }
{
    parts_of_each_generic_have_tokens();
    instances_are_those_that_units_are();
}

/// It is well-formed, and what it declares has sizes.
pub fn legal_programs_have_sizes()
    ensures { (files : ℕ) (units : List LibraryUnit) (main : List ℕ) (p : Program) → AreUnitsOf files units main p
        → HasSizes p }
{
    legal_programs_are_well_formed();
    words_are_within_limits();
    library_words_are_within_limits();
}

/// The nodes of its typed form, copies counted, are no more than those of the expanded program, where its
/// declarations of types weigh no more than the rules count.
pub fn legal_programs_are_light()
    ensures { (files : ℕ) (units : List LibraryUnit) (main : List ℕ) (t : TypedProgram)
        → AreUnitsOf files units main (program_of t) → DeclaresTypes (whole_library units) main t
        → nodes_of t ≤ node_count (entries_for units main) }
{
    parts_of_each_generic_have_tokens();
    instances_are_those_that_units_are();
}

/// Its kernel can be laid out, where its typed form names its types where they stand.
pub fn legal_programs_can_be_laid()
    ensures { (files : ℕ) (units : List LibraryUnit) (main : List ℕ) (t : TypedProgram)
        → AreUnitsOf files units main (program_of t) → DeclaresTypes (whole_library units) main t
        → AreTypesNamed t → CanBeLaid t }
{
    legal_programs_are_light();
    legal_programs_have_few_copies();
    legal_programs_have_sizes();
}
