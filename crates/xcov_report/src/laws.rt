//! What holds of the definitions of a listing. The functions here do nothing: each carries a law as its
//! contract.

ghost use Rattle.std.specs.Prelude.{◌≡◌, ℕ, List};
ghost use Rattle.std.specs.List.{list_any};
ghost use Rattle.cov_base.specs.declared.event.Event.{Event};
ghost use Rattle.cov_base.specs.declared.level.Level.{Level};
ghost use Rattle.cov_base.specs.declared.obligations.Obligations.{Obligations};
ghost use Rattle.cov_base.specs.declared.obligations.Region.{Region};
ghost use Rattle.cov_base.specs.declared.obligations.SourceFile.{SourceFile};
ghost use Rattle.annotated_report.specs.declared.finding.Finding.{Finding};
ghost use Rattle.annotated_report.specs.Lines.{region_round};
ghost use Rattle.annotated_report.specs.Members.{AreAlike};
ghost use Rattle.xcov_report.specs.declared.told.Told.TheVariants as told;
ghost use Rattle.xcov_report.specs.Listing.{xcov_text};
ghost use Rattle.xcov_report.specs.Obliged.{is_of_some, region_stretches};
ghost use Rattle.xcov_report.specs.Told.{tells};

/// The text depends on which events there are, and not on their order or on how often one is there.
pub fn the_text_depends_on_the_set_of_events()
    ensures { (level : Level) (obligations : Obligations) (traces : ℕ) (events others : List Event)
        (files : List SourceFile) → AreAlike events others
        → xcov_text level obligations traces events files ≡ xcov_text level obligations traces others files }
{}

/// A line is marked as of a region with a finding exactly where it is of the region of some finding,
/// which is the first in the list that holds the finding's place, as in the report.
#[tactic(auto, using(crate::proofs::Rounds::told_by_findings))]
pub fn regions_are_marked_by_their_findings()
    ensures { (regions : List Region) (found : List Finding) (file line : ℕ)
        → list_any (tells told.Exempted file line) (region_stretches regions found)
        ≡ list_any (λ (f : Finding). is_of_some file line (region_round f.key.pos regions)) found }
{}
