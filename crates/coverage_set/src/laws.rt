//! Laws of unions, of consolidated files, and of the traces of runs.

ghost use Rattle.std.specs.Prelude.{◌≡◌, ◌↔◌, ◌⊎◌, ℕ, ◌≤◌, ℤ, List, [], length, None, Ok};
ghost use Rattle.cov_base.specs.declared.event.Event.{Event};
ghost use Rattle.cov_base.specs.declared.failure.Failure.TheVariants.{Fault};
ghost use Rattle.decision_map.specs.Fits.{fault_of};
ghost use Rattle.object_facts.specs.Object.{facts_of};
ghost use Rattle.object_format.specs.Checked.{IsSound};
ghost use Rattle.object_format.specs.declared.object.Object.{Object};
ghost use Rattle.rv_machine.specs.Objects.{object_run};
ghost use Rattle.rv_semantics.specs.Run.Outcome.{Ended};
ghost use Rattle.trace_format.specs.declared.consolidated.fault.ConsFault.{ConsFault};
ghost use Rattle.trace_format.specs.Checks.{trace_of};
ghost use Rattle.trace_format.specs.Trace.{TraceFile, closed_by};
ghost use Rattle.trace_record.specs.Written.{traced};
ghost use Rattle.transcript.specs.Reading.{Tells, AllFollow, IsDisciplined};
ghost use Rattle.transcript.specs.Trace.{Says};
ghost use Rattle.vector_rebuild.specs.Entries.{trace_in};
ghost use Rattle.vector_rebuild.specs.Rebuilt.{visits_of};
ghost use Rattle.coverage_set.specs.Consolidated.{IsReadOf, IsRefused};
ghost use Rattle.coverage_set.specs.Covered.{Covered, Has, HasRun, AreSame, IsUnion};
ghost use Rattle.coverage_set.specs.Read.{AddsTraceIn};
ghost use Rattle.coverage_set.specs.Written.{IsFileOf};

/// Coverages of one object may be joined in any order and grouping, and one may be joined twice.
pub fn unions_have_their_laws()
    ensures commutative { (a b ab ba : Covered) → a.object ≡ b.object → IsUnion a b ab → IsUnion b a ba
        → AreSame ab ba }
    ensures associative { (a b c ab bc left right : Covered) → IsUnion a b ab → IsUnion ab c left
        → IsUnion b c bc → IsUnion a bc right → AreSame left right }
    ensures idempotent { (a both : Covered) → IsUnion a a both → AreSame a both }
{}

/// A coverage has one consolidated file: coverages that stand for the same are written as the same
/// bytes, in whatever order, grouping and repetition they came about. Such a file says one thing of its
/// object. And what is read of bytes beside an object is not refused there.
pub fn a_coverage_has_one_file()
    ensures one { (a b : Covered) (xs ys : List ℕ) → AreSame a b → IsFileOf a xs → IsFileOf b ys → xs ≡ ys }
    ensures says_one { (a b : Covered) (bytes : List ℕ) → a.object ≡ b.object → IsFileOf a bytes → IsFileOf b bytes
        → AreSame a b }
    ensures taken { (o : Object) (bytes : List ℕ) (c : Covered) (fault : ConsFault) → IsReadOf o bytes c
        → IsRefused o bytes (Fault fault) → ⊥ }
{}

/// What the trace file of a run says is what the transcript of the run tells, whatever digest closes
/// the file.
pub fn traces_of_runs_say_what_the_runs_tell()
    ensures { (o : Object) (budget : ℕ) (input : List ℤ) (ending : ℕ) (closing : List ℕ) (e : Event) → IsSound o
        → (object_run o budget input).outcome ≡ Ended ending
        → IsDisciplined (facts_of o) (object_run o budget input).entries
        → Says (facts_of o) (trace_in (closed_by (traced o (object_run o budget input).entries ending) closing)) e
        ↔ Tells (facts_of o) (object_run o budget input).entries e }
{}

/// The trace file of a run that ended passes all checks beside its object, whatever digest closes the
/// file: the run ends with 0 or with the number of an exception of the object, its blocks are blocks of
/// the text with the flags of their ends, and its history is of branches that keep one, each shown by
/// a block. Where the transcript is disciplined, each entry of the history follows those before it.
pub fn own_traces_pass_all_checks()
    ensures ending { (o : Object) (budget : ℕ) (input : List ℤ) (ending : ℕ)
        → (object_run o budget input).outcome ≡ Ended ending → ending ≤ length o.obligations.exceptions }
    ensures fits { (o : Object) (budget : ℕ) (input : List ℤ) (ending : ℕ) (closing : List ℕ) → IsSound o
        → (object_run o budget input).outcome ≡ Ended ending
        → fault_of o (closed_by (traced o (object_run o budget input).entries ending) closing) ≡ None }
    ensures follows { (o : Object) (budget : ℕ) (input : List ℤ) (ending : ℕ) (closing : List ℕ)
        → IsDisciplined (facts_of o) (object_run o budget input).entries
        → AllFollow (facts_of o) []
        (visits_of (facts_of o) (closed_by (traced o (object_run o budget input).entries ending) closing).history) }
{}

/// A trace that was added in pieces was added as a view of its bytes is: coverages that come of both stand
/// for the same.
pub fn a_trace_in_pieces_is_the_trace()
    ensures { (o : Object) (bytes : List ℕ) (t : TraceFile) (old pieces whole : Covered) → trace_of bytes ≡ Ok t
        → pieces.object ≡ whole.object → AddsTraceIn o bytes old pieces
        → ((e : Event) → Has whole e ↔ (Has old e ⊎ Says (facts_of o) (trace_in t) e))
        → ((digest : List ℕ) → HasRun whole digest ↔ (HasRun old digest ⊎ (t.closing ≡ digest)))
        → AreSame pieces whole }
{}
