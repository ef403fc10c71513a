//! What holds of the definitions of the report as JSON. The functions here do nothing: each carries a
//! law as its contract.

ghost use Rattle.std.specs.Prelude.{◌≡◌, ◌<◌, ℕ, List, Some, slice_get, true};
ghost use Rattle.cov_base.specs.declared.event.Event.{Event};
ghost use Rattle.cov_base.specs.declared.level.Level.{Level};
ghost use Rattle.cov_base.specs.declared.obligations.DecEntry.{DecEntry};
ghost use Rattle.cov_base.specs.declared.obligations.Obligations.{Obligations};
ghost use Rattle.cov_base.specs.Lists.{Somewhere};
ghost use Rattle.decision_meaning.specs.Pair.{Pair};
ghost use Rattle.annotated_report.specs.Findings.{asks_pairs, expr_of};
ghost use Rattle.annotated_report.specs.LeastPair.{shown_pair};
ghost use Rattle.annotated_report.specs.Members.{AreAlike};
ghost use Rattle.annotated_report.specs.Paired.{IsLeastGiven};
ghost use Rattle.annotated_report.specs.Verdicts.{vectors_of};
ghost use Rattle.json_report.specs.Pairs.{CarriesLeastPairs};
ghost use Rattle.json_report.specs.Text.{json_text};

/// The text depends on which events there are, and not on their order or on how often one is there.
pub fn the_json_depends_on_the_set_of_events()
    ensures { (level : Level) (obligations : Obligations) (traces : ℕ) (events others : List Event)
        (names : List (List ℕ)) → AreAlike events others
        → json_text level obligations traces events names ≡ json_text level obligations traces others names }
{}

/// The pair that a condition is told with is the least one of the level's kind among the vectors that
/// the events give its decision.
pub fn the_pairs_are_the_least_of_the_events()
    ensures { (level : Level) (events : List Event) (d : ℕ) (entry : DecEntry) (c : ℕ) (pair : Pair)
        → shown_pair level (expr_of entry) (vectors_of events d) c ≡ Some pair
        → IsLeastGiven level (λ e. Somewhere (λ x. x ≡ e) events) d entry c pair }
{}

/// At a level that asks for pairs the report tells of each condition the least pair of the vectors that
/// the events give its decision, and null only where no two of them are a pair.
#[tactic(auto, using(crate::proofs::ToldPairs::carries_least_pairs))]
pub fn the_json_carries_all_least_pairs()
    ensures { (level : Level) (obligations : Obligations) (traces : ℕ) (events : List Event) (names : List (List ℕ))
        → asks_pairs level ≡ true
        → CarriesLeastPairs level obligations.decisions (λ e. Somewhere (λ x. x ≡ e) events) names
        (json_text level obligations traces events names) }
{}
