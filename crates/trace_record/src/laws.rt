//! Laws of what is recorded.

ghost use Rattle.std.specs.Prelude.{◌≤◌, List, length};
ghost use Rattle.rv_semantics.specs.declared.stepped.Seen.{Seen};
ghost use Rattle.trace_record.specs.Recorded.{Recorded, Records};

/// A history has at most an entry for each executed instruction. So it is short after a run whose
/// count 32 bits hold.
#[tactic(auto, using(crate::proofs::Histories::short_history))]
pub fn histories_are_no_longer_than_runs()
    ensures { (r : Recorded) (ss : List Seen) → Records r ss → length r.history ≤ length ss }
{}
