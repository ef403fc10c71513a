//! What holds of every trace file and consolidated file, for callers that reason about one.

ghost use Rattle.std.specs.Prelude.{◌≡◌, ◌<◌, ◌≤◌, ℕ, Some, slice_get};
ghost use Rattle.trace_format.specs.declared.trace.Block.{Block};
ghost use Rattle.trace_format.specs.declared.trace.HistoryEntry.{HistoryEntry};
ghost use Rattle.trace_format.specs.declared.trace.Trace.{Trace};
ghost use Rattle.trace_format.specs.Trace.{TraceFile, trace_in};
ghost use Rattle.trace_format.specs.Formats.{trace_spelling};
ghost use Rattle.trace_format.specs.Checks.{Passes, IsClosed, IsWellPlaced};
ghost use Rattle.trace_format.specs.Consolidated.{ConsolidatedFile, consolidated_in};
ghost use Rattle.trace_format.specs.ConsolidatedFormats.{consolidated_spelling};
ghost use Rattle.trace_format.specs.ConsolidatedChecks.{IsSealed};

/// A law: a trace has one file, and a file one trace.
pub fn one_trace()
    ensures { (s t : TraceFile) → IsClosed s → IsClosed t → trace_spelling (trace_in s) ≡ trace_spelling (trace_in t)
        → s ≡ t }
{}

/// A law: what runs covered has one consolidated file, and such a file says one thing.
pub fn one_consolidated_file()
    ensures { (a b : ConsolidatedFile) → IsSealed a → IsSealed b
        → consolidated_spelling (consolidated_in a) ≡ consolidated_spelling (consolidated_in b) → a ≡ b }
{}

/// A law: what it says of the entries of a trace that it passes.
pub fn passing()
    ensures block { (t : Trace) (at : ℕ) (b : Block) → Passes t → slice_get t.blocks at ≡ Some b → IsWellPlaced b }
    ensures rising { (t : Trace) (i j : ℕ) (a b : Block) → Passes t → i < j → slice_get t.blocks i ≡ Some a
        → slice_get t.blocks j ≡ Some b → a.start < b.start }
    ensures entry { (t : Trace) (at : ℕ) (h : HistoryEntry) → Passes t → slice_get t.history at ≡ Some h → h.edge ≤ 1 }
{}
