//! What an object says of its addresses and decisions, as the functions over which coverage is told,
//! and its runs on the machine. `specs/` gives them: `facts_of` an object, and `object_run` an object on
//! an input. The functions here do nothing: each carries a law of the definitions as its contract.
//!
//! The contract that the layers above use: [`objects_have_fair_facts`] and [`runs_have_transcripts`].
//! They make the laws of `transcript` speak of the runs of a checked object.
#![tactic(auto)]

ghost use Rattle.std.specs.Prelude.{◌≡◌, ◌++◌, ℕ, ℤ, List, None, if◌then◌else◌};
ghost use Rattle.decision_map.specs.Kinds.{has_edges};
ghost use Rattle.decision_map.specs.Roles.{needs_history, kind_at};
ghost use Rattle.object_format.specs.declared.object.Object.{Object};
ghost use Rattle.object_format.specs.Checked.{IsSound};
ghost use Rattle.object_facts.specs.Held.{AreHeld};
ghost use Rattle.rv_semantics.specs.declared.stepped.Seen.{Seen};
ghost use Rattle.rv_semantics.specs.Run.Outcome.{Ended};
ghost use Rattle.transcript.specs.Facts.{AreFair};
ghost use Rattle.transcript.specs.Pieces.{IsEnded};
ghost use Rattle.transcript.specs.Trace.{branched_by, kept_of};
ghost use Rattle.object_facts.specs.Kinds.{ends_piece};
ghost use Rattle.object_facts.specs.Object.{facts_of, IsTranscript};
ghost use Rattle.rv_machine.specs.Objects.{object_image, object_run};

mod machine_runs;

pub use machine_runs::machine_runs_have_transcripts;

/// An object that passes its checks has fair facts, and they are those of its text.
pub fn objects_have_fair_facts()
    ensures fair { (o : Object) → IsSound o → AreFair (facts_of o) }
    ensures held { (o : Object) → IsSound o → AreHeld (facts_of o) (object_image o) }
{}

/// The instructions that a run of an object executes are a transcript. Where the run ended, the last
/// one is a control transfer.
pub fn runs_have_transcripts()
    ensures transcript { (o : Object) (budget : ℕ) (input : List ℤ) → IsSound o
        → IsTranscript o (object_run o budget input).entries }
    ensures ended { (o : Object) (budget : ℕ) (input : List ℤ) (number : ℕ) → IsSound o
        → (object_run o budget input).outcome ≡ Ended number → IsEnded (facts_of o) (object_run o budget input).entries }
{}

/// What a map of a checked object says of its words is what the facts say: which are control transfers,
/// which are conditional branches, and of which each execution is kept.
pub fn maps_agree_with_facts()
    ensures transfers { (o : Object) (pc : ℕ) → IsSound o → ends_piece (kind_at o pc) ≡ (facts_of o).transfers pc }
    ensures branches { (o : Object) (pc : ℕ) → IsSound o → has_edges (kind_at o pc) ≡ (facts_of o).branches pc }
    ensures kept { (o : Object) (s : Seen) → kept_of (facts_of o) s
        ≡ (if needs_history o s.pc then branched_by s.pc s.x8 s.edge else None) }
{}

/// The beginning of a transcript is a transcript.
pub fn transcripts_begin_with_transcripts()
    ensures { (o : Object) (xs ys : List Seen) → IsTranscript o (xs ++ ys) → IsTranscript o xs }
{}
