//! Laws of what commands make of files.

ghost use Rattle.std.specs.Prelude.{◌≡◌, ℕ, ℤ, List, [], ◌∷◌, true};
ghost use Rattle.cov_base.specs.declared.level.Annotation.{Annotation};
ghost use Rattle.cov_base.specs.declared.level.Level.{Level};
ghost use Rattle.cov_base.specs.declared.obligations.SourceFile.{SourceFile};
ghost use Rattle.commands.specs.Content.{Made, IsInputOf, IsTraceFor, Reports, ConsolidatesTo};
ghost use Rattle.commands.specs.Grouping.{TellSame};
ghost use Rattle.kernel_code.specs.Whole.{IsInput};
ghost use Rattle.object_format.specs.Checked.{IsSound};
ghost use Rattle.annotated_report.specs.Rising.{rise};
ghost use Rattle.object_format.specs.declared.object.Object.{Object};

/// How runs are grouped into files does not matter, nor in which order these are named, nor how often.
/// Files that show the same events and are of the same runs give the same consolidated file, the same
/// lines and the same report, in each form. A consolidated file tells what the files do of which it was made, and is
/// taken wherever they are.
pub fn grouping_does_not_matter()
    ensures consolidation { (o : Object) (files others : List (List ℕ)) (a b : Made) → TellSame o files others
        → ConsolidatesTo o files a → ConsolidatesTo o others b → a ≡ b }
    ensures report { (level : Level) (annotation : Annotation) (o : Object) (files others : List (List ℕ))
        (sources : List SourceFile) (a b : List ℕ) → TellSame o files others
        → Reports level annotation o sources files a → Reports level annotation o sources others b → a ≡ b }
    ensures stands { (o : Object) (files : List (List ℕ)) (made : Made) → ConsolidatesTo o files made
        → TellSame o files (made.file ∷ []) }
    ensures taken { (o : Object) (files : List (List ℕ)) (made : Made) → IsSound o → ConsolidatesTo o files made
        → IsTraceFor o made.file }
{}

/// The regions of an object that passed its checks rise, so each look-up of a finding's region halves them.
#[tactic(auto, using(crate::proofs::RisingRegions::regions_law))]
pub fn regions_of_objects_rise()
    ensures { (o : Object) → IsSound o → rise o.obligations.regions ≡ true }
{}

/// The numbers of an input file are of 32 bits, as a program reads them.
#[tactic(auto, using(crate::proofs::InputLaws::numbers_fit))]
pub fn inputs_are_of_32_bits()
    ensures { (bytes : List ℕ) (numbers : List ℤ) → IsInputOf numbers bytes → IsInput numbers }
{}
