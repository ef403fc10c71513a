//! Laws of runs that are grouped into files in one way or another.

ghost use Rattle.std.specs.Prelude.{◌≡◌, ◌↔◌, ℕ, List, ◌∷◌, ◌++◌, Option};
ghost use Rattle.command_words.specs.Task.{Task};
ghost use Rattle.cov_base.specs.Lists.{Somewhere};
ghost use Rattle.commands.specs.Content.{Made, ConsolidatesTo};
ghost use Rattle.commands.specs.declared.status.Status.{Status};
ghost use Rattle.commands.specs.Grouping.{TellSame};
ghost use Rattle.commands.specs.Outcome.{Call};
ghost use Rattle.commands.specs.Regrouping.{FilesAreCovered, FilesAreConsolidated, OneFileStandsForAll};
ghost use Rattle.commands.specs.Regrouping.{CoverageKnowsNoGrouping, ConsolidationKnowsNoGrouping};
ghost use Rattle.object_format.specs.declared.object.Object.{Object};

/// The same files in any order and with any repetition tell the same, and so do files of which a part was
/// consolidated first. These are joined: files tell the same beside others that do, there and back, and
/// through others.
pub fn files_in_any_grouping_tell_the_same()
    ensures members { (o : Object) (files others : List (List ℕ))
        → ((bytes : List ℕ) → Somewhere (λ x. x ≡ bytes) files ↔ Somewhere (λ x. x ≡ bytes) others)
        → TellSame o files others }
    ensures part { (o : Object) (part others : List (List ℕ)) (made : Made) → ConsolidatesTo o part made
        → TellSame o (part ++ others) (made.file ∷ others) }
    ensures beside { (o : Object) (a b c d : List (List ℕ)) → TellSame o a b → TellSame o c d
        → TellSame o (a ++ c) (b ++ d) }
    ensures back { (o : Object) (a b : List (List ℕ)) → TellSame o a b → TellSame o b a }
    ensures through { (o : Object) (a b c : List (List ℕ)) → TellSame o a b → TellSame o b c → TellSame o a c }
{}

/// What the public call says of the files of one call is enough for any two calls: over files that tell the
/// same, coverage puts the same text in each form, and consolidate writes the same bytes. And the file that a
/// call of consolidate writes may stand for the files of which it was made.
pub fn calls_know_no_grouping()
    ensures coverage { (task : Option Task) (call : Call) (status : Status) → FilesAreCovered task call status
        → CoverageKnowsNoGrouping task call status }
    ensures consolidation { (task : Option Task) (call : Call) (status : Status)
        → FilesAreConsolidated task call status → ConsolidationKnowsNoGrouping task call status }
    ensures part { (task : Option Task) (call : Call) (status : Status) → FilesAreConsolidated task call status
        → OneFileStandsForAll task call status }
{}
