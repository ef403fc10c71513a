//! What holds of the definitions of a report. The functions here do nothing: each carries a law as its
//! contract.

ghost use Rattle.std.specs.Prelude.{◌≡◌, ◌↔◌, ℕ, List, Bool, true, IsTrue};
ghost use Rattle.cov_base.specs.declared.event.Event.{Event};
ghost use Rattle.cov_base.specs.declared.event.Vector.{Vector};
ghost use Rattle.cov_base.specs.declared.level.Level.{Level};
ghost use Rattle.cov_base.specs.declared.obligations.DecEntry.{DecEntry};
ghost use Rattle.cov_base.specs.declared.obligations.Obligations.{Obligations};
ghost use Rattle.cov_base.specs.declared.position.StmtId.{StmtId};
ghost use Rattle.cov_base.specs.Expr.{Expr, size};
ghost use Rattle.cov_base.specs.Lists.{Everywhere, Somewhere};
ghost use Rattle.decision_meaning.specs.Pair.{IsLeastPair};
ghost use Rattle.decision_meaning.specs.Verdict.{IsStarted, Gives, GivesBoth};
ghost use Rattle.annotated_report.specs.Findings.{asks_pairs};
ghost use Rattle.annotated_report.specs.LeastPair.{kind_of, shown_pair};
ghost use Rattle.annotated_report.specs.Members.{AreAlike};
ghost use Rattle.annotated_report.specs.Paired.{IsGiven, TellsAPair, EndsInPairs};
ghost use Rattle.annotated_report.specs.Report.{report_text};
ghost use Rattle.annotated_report.specs.Shown.{pair_lines};
ghost use Rattle.annotated_report.specs.Verdicts.{is_started, starts_of, vectors_of, gives, is_covered};

/// The text depends on which events there are, and not on their order or on how often one is there.
#[tactic(auto, using(crate::proofs::Alike::same_text))]
pub fn the_text_depends_on_the_set_of_events()
    ensures { (level : Level) (obligations : Obligations) (traces : ℕ) (events others : List Event)
        (names : List (List ℕ)) → AreAlike events others
        → report_text level obligations traces events names ≡ report_text level obligations traces others names }
{}

/// What a report says of statements, decisions and conditions are the verdicts of the definitions: a
/// statement is started, an outcome given, a decision covered as they say, and the pair that is shown
/// for a condition is the least one of the level's kind. The vectors of a decision are those of its
/// evaluations, in all instances.
pub fn verdicts_are_those_of_the_definitions()
    ensures started { (events : List Event) (s : StmtId)
        → IsTrue (is_started events s.0) ↔ IsStarted (starts_of events) s }
    ensures vectors { (events : List Event) (d : ℕ) (v : Vector)
        → Somewhere (λ x. x ≡ v) (vectors_of events d) ↔ IsGiven (λ e. Somewhere (λ x. x ≡ e) events) d v }
    ensures outcomes { (e : Expr) (vectors : List Vector) (given : Bool)
        → IsTrue (gives e given vectors) ↔ Gives e vectors given }
    ensures covered { (e : Expr) (vectors : List Vector) → IsTrue (is_covered e vectors) ↔ GivesBoth e vectors }
    ensures least { (level : Level) (e : Expr) (vectors : List Vector) (c : ℕ)
        → IsLeastPair (size e) (kind_of level e c) vectors (shown_pair level e vectors c) }
{}

/// Each line of a pair tells two vectors of events, of completed evaluations of the decision, that are
/// the least pair which shows the condition to matter.
#[tactic(auto, using(crate::proofs::PairedEvents::pairs_of_events))]
pub fn pairs_are_of_events()
    ensures { (level : Level) (decisions : List DecEntry) (events : List Event)
        → Everywhere (TellsAPair level decisions (λ e. Somewhere (λ x. x ≡ e) events)) (pair_lines level decisions events) }
{}

/// At a level that asks for pairs the report ends in them: there is a line for each condition that the
/// vectors of the events show to matter, with its least pair, and for no other.
#[tactic(auto, using(crate::proofs::PairedEvents::report_ends_in_pairs))]
pub fn the_report_ends_in_all_least_pairs()
    ensures { (level : Level) (obligations : Obligations) (traces : ℕ) (events : List Event) (names : List (List ℕ))
        → asks_pairs level ≡ true
        → EndsInPairs level obligations.decisions (λ e. Somewhere (λ x. x ≡ e) events) names
        (report_text level obligations traces events names) }
{}
