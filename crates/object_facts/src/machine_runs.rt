//! Runs of the machine have transcripts from which coverage can be told, for any facts that are held
//! by the image that is run.

ghost use Rattle.std.specs.Prelude.{◌≡◌, ℕ, ℤ, List};
ghost use Rattle.rv_semantics.specs.State.{Image, State};
ghost use Rattle.rv_semantics.specs.Run.{runs};
ghost use Rattle.rv_semantics.specs.Run.Outcome.{Ended};
ghost use Rattle.transcript.specs.Facts.{Facts};
ghost use Rattle.transcript.specs.Pieces.{RunsOn, IsEnded};
ghost use Rattle.transcript.specs.Trace.{HasEdges};
ghost use Rattle.object_facts.specs.Held.{AreHeld};

/// The transcript of a run goes on from word to word inside its pieces, and just its conditional
/// branches have edges. Where the run ended, its last instruction is a control transfer.
pub fn machine_runs_have_transcripts()
    ensures runs_on { (o : Facts) (image : Image) (budget : ℕ) (s : State) (input : List ℤ) → AreHeld o image
        → RunsOn o (runs image budget s input).entries }
    ensures edges { (o : Facts) (image : Image) (budget : ℕ) (s : State) (input : List ℤ) → AreHeld o image
        → HasEdges o (runs image budget s input).entries }
    ensures ended { (o : Facts) (image : Image) (budget : ℕ) (s : State) (input : List ℤ) (number : ℕ) → AreHeld o image
        → (runs image budget s input).outcome ≡ Ended number → IsEnded o (runs image budget s input).entries }
{}
