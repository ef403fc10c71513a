//! The coverage of an object.

ghost use Rattle.std.specs.Prelude.{◌≡◌, ◌≢◌, ◌↔◌, ◌⊎◌, ◌≤◌, ℕ, List, [], IfOk, IfErr, OnOk, OnErr, IsErrOf, AllPairs, None};
ghost use Rattle.std.specs.List.Sorted.{IsStrictlySortedBy};
ghost use Rattle.cov_base.specs.declared.event.Event.{Event};
ghost use Rattle.cov_base.specs.declared.failure.Failure.TheVariants.{Fault};
ghost use Rattle.cov_io.specs.Outside.{Rose, IsAbsent};
ghost use Rattle.decision_map.specs.Fits.{fault_of};
ghost use Rattle.cov_base.specs.Lists.{Somewhere};
ghost use Rattle.object_facts.specs.Object.{facts_of};
ghost use Rattle.object_format.specs.Checked.{IsSound};
ghost use Rattle.trace_format.specs.Reader.{file_name};
ghost use Rattle.trace_format.specs.Stream.{AreTold};
ghost use Rattle.transcript.specs.Reading.{AllFollow};
ghost use Rattle.transcript.specs.Trace.{Says};
ghost use Rattle.vector_rebuild.specs.Entries.{trace_in};
ghost use Rattle.vector_rebuild.specs.Rebuilt.{visits_of};
ghost use Rattle.coverage_set.specs.Consolidated.{ArePossible, IsPossibleEvent, IsReadOf, IsRefused};
ghost use Rattle.coverage_set.specs.Covered.{HasRun, Has, IsUnion, IsCountOfRuns};
ghost use Rattle.coverage_set.specs.Covered.{Part, HasPart, of_one_object};
ghost use Rattle.coverage_set.specs.declared.fault.AddFault.TheVariants.{Read};
ghost use Rattle.coverage_set.specs.Exact.{event_cmp};
ghost use Rattle.coverage_set.specs.Read.{IsOpened, AddsTraceIn, IsNotAdded};
ghost use Rattle.coverage_set.specs.Said.{IsBrokenBy};
ghost use Rattle.coverage_set.specs.Written.{IsFileOf};

use crate::consolidated::{events_in, fit, runs_in};
use crate::entries::{starts_among, vectors_among};
use crate::fault::AddFault;
use crate::join::Join;
use crate::reading::Reading;
use crate::said::said;
use crate::set::SortedSet;
use cov_base::{Digest, Event, Failure};
use cov_io::Files;
use decision_map::DecisionMap;
use object_format::Object;
use std::alloc::{AllocError, Global};
use std::marker::Model;
use trace_format::{ConsFault, ConsolidatedParts, ConsolidatedView, TraceReader, TraceView};
use vector_rebuild::BrokenHistory;

/// What runs of an object covered: the closing digests of their traces, and their events.
pub struct Coverage<'a> {
    alloc: Global,
    object: &'a Object,
    runs: SortedSet<Digest>,
    events: SortedSet<Event>,
}

// Written out: a derived drop is proved anew in each crate above.
impl Drop for Coverage<'_> {
    fn drop(self) {
        let Coverage {
            alloc: _,
            object: _,
            runs: _,
            events: _,
        } = self;
    }
}

impl<'a> Model for Coverage<'a> {
    ghost use Rattle.coverage_set.specs.Consolidated.{ArePossible};
    ghost use Rattle.coverage_set.specs.Covered.{Covered};

    ghost Value = { Covered };

    ghost view = { λ c. record { object = c.object.now; runs = c.runs; events = c.events } };

    ghost invariant = { λ c. ArePossible c.object.now c.events };
}

impl<'a> Coverage<'a> {
    /// No run of the object covered anything.
    pub fn new(alloc: Global, object: &'a Object) -> Self
        ensures object { result.object ≡ object.now }
        ensures runs { (digest : List ℕ) → HasRun result digest → ⊥ }
        ensures events { (e : Event) → Has result e → ⊥ }
    {
        Coverage {
            alloc,
            object,
            runs: SortedSet::new(alloc),
            events: SortedSet::new(alloc),
        }
    }

    /// The object.
    pub fn object(&self) -> &'a Object
        ensures { result.now ≡ self.now.object }
    {
        self.object
    }

    /// How many runs there were. Runs whose traces are equal are one.
    pub fn runs(&self) -> u64
        ensures { IsCountOfRuns self.now result }
    {
        self.runs.as_slice().len() as u64
    }

    /// The events, each once: starts by statement and instance, then evaluations by decision, instance
    /// and vector.
    pub fn events(&self) -> Result<Vec<Event>, AllocError>
        ensures all { IfOk result (λ events. (e : Event) → Somewhere (λ x. x ≡ e) events.items ↔ Has self.now e) }
        ensures each_once { IfOk result (λ events. AllPairs (λ x y. x ≢ y) events.items) }
        ensures order { IfOk result (λ events. IsStrictlySortedBy event_cmp events.items) }

        // Runs of the object can have them: rows start the statements, and paths give the vectors.
        ensures possible { (e : Event) → Has self.now e → IsPossibleEvent self.now.object e }
    {
        Vec::from_slice(self.alloc, self.events.as_slice())
    }

    /// Adds what a trace of the object says, and its run.
    pub fn add_trace(
        &mut self,
        map: &DecisionMap<'_>,
        view: &TraceView<'_>,
    ) -> Result<(), Failure<BrokenHistory>>
        // The map is of the coverage's object, which passed its checks, and the trace fits it.
        requires sound { IsSound map.now }
        requires object { map.now ≡ self.old.object }
        requires fits { fault_of map.now view.now ≡ None }
        ensures object { self.new.object ≡ self.old.object }
        ensures events { OnOk result ((e : Event) → Has self.new e
            ↔ (Has self.old e ⊎ Says (facts_of map.now) (trace_in view.now) e)) }
        ensures runs { OnOk result ((digest : List ℕ) → HasRun self.new digest
            ↔ (HasRun self.old digest ⊎ (view.now.closing ≡ digest))) }

        // It is refused exactly where the history breaks, at the first entry that follows none before it.
        ensures follow { OnOk result (AllFollow (facts_of map.now) [] (visits_of (facts_of map.now) view.now.history)) }
        ensures broken { IfErr result (IsBrokenBy (facts_of map.now) (visits_of (facts_of map.now) view.now.history)) }
        ensures refused { OnErr result (self.new ≡ self.old) }
    {
        let found = said(self.alloc, map, view)?;
        self.grow(&found, view.closing())?;
        Ok(())
    }

    /// Adds what the trace says that a reader reads, and its run: of the trace file in the bytes that the
    /// files tell it is what [`add_trace`](Coverage::add_trace) adds of a view of them. No more of the
    /// file is in memory than a part of 65,536 bytes.
    ///
    /// It answers `Read` where a read failed; else the fault of the format that the bytes have, the check
    /// beside the object that the trace fails, or the entry at which its history breaks, the first of
    /// these. Then all is as before.
    pub fn add_read<F: Files>(
        &mut self,
        map: &DecisionMap<'_>,
        files: &mut F,
        reader: &mut TraceReader,
    ) -> Result<(), Failure<AddFault>>
        // The map is of the coverage's object, which passed its checks, and the reader is as it was opened.
        requires sound { IsSound map.now }
        requires object { map.now ≡ self.old.object }
        requires opened { IsOpened (F.held files.old) reader.old }
        ensures object { self.new.object ≡ self.old.object }
        ensures added { (bytes : List ℕ) → AreTold (F.held files.old) (file_name reader.old) bytes
            → OnOk result (AddsTraceIn map.now bytes self.old self.new) }
        ensures cause { (bytes : List ℕ) → AreTold (F.held files.old) (file_name reader.old) bytes
            → IfErr result (IsNotAdded map.now bytes) }
        ensures refused { OnErr result (self.new ≡ self.old) }

        // What becomes of the files.
        ensures same { F.held files.new ≡ F.held files.old }
        ensures failed { IsErrOf result (Fault Read)
            → Rose (F.reads_failed files.old) (F.reads_failed files.new)
            ⊎ IsAbsent (F.held files.old) (file_name reader.old) }
        ensures stays { result ≢ Err (Fault Read) → F.reads_failed files.new ≡ F.reads_failed files.old }
        ensures later { F.reads_failed files.old ≤ F.reads_failed files.new }
        ensures writes { F.writes_failed files.new ≡ F.writes_failed files.old }
    {
        let mut reading = Reading::new(self.alloc, map)?;
        let closing = reading.read(map, files, reader)?;
        let found = reading.end()?;
        self.grow(&found, closing)?;
        Ok(())
    }

    /// Adds events, and the run whose trace has this digest.
    fn grow(&mut self, found: &SortedSet<Event>, closing: Digest) -> Result<(), AllocError>
        requires { ArePossible self.old.object found.now }
        ensures object { self.new.object ≡ self.old.object }
        ensures events { OnOk result ((e : Event)
            → Has self.new e ↔ (Has self.old e ⊎ Somewhere (λ x. x ≡ e) found.now)) }
        ensures runs { OnOk result ((digest : List ℕ)
            → HasRun self.new digest ↔ (HasRun self.old digest ⊎ (closing ≡ digest))) }
        ensures refused { OnErr result (self.new ≡ self.old) }
    {
        let single = SortedSet::single(self.alloc, closing)?;
        let events = self.events.grown(self.alloc, found)?;
        let runs = self.runs.grown(self.alloc, &single)?;
        self.events.take(events);
        self.runs.take(runs);
        Ok(())
    }
}

impl<'a> Join for Coverage<'a> {
    ghost Part = { Part };

    ghost Has = { HasPart };

    ghost AreAlike = { λ a b. a.object ≡ b.object };

    /// Adds what another coverage of the same object stands for.
    fn join(&mut self, other: &Self) -> Result<(), AllocError>
        requires { other.now.object ≡ self.old.object }
        ensures ok { OnOk result (IsUnion self.old other.now self.new) }
        ensures err { OnErr result (self.new ≡ self.old) }
    {
        let events = self.events.grown(self.alloc, &other.events)?;
        let runs = self.runs.grown(self.alloc, &other.runs)?;
        self.events.take(events);
        self.runs.take(runs);
        Ok(())
    }

    ghost alike_law = { of_one_object };
}

/// What a consolidated file of the object of a map says, or the first check that it fails: those of the
/// format, then `foreign`, `start` and `vector`.
pub fn read_consolidated<'a>(
    alloc: Global,
    map: &DecisionMap<'a>,
    bytes: &[u8],
) -> Result<Coverage<'a>, Failure<ConsFault>>
    ensures read { IfOk result (IsReadOf map.now bytes.now) }
    ensures refused { IfErr result (IsRefused map.now bytes.now) }

    // What is read has these bytes as its file.
    ensures file { IfOk result (λ c. IsFileOf c bytes.now) }
{
    let view = ConsolidatedView::view(bytes)?;
    fit(alloc, map, &view)?;
    let runs = runs_in(alloc, &view)?;
    let events = events_in(alloc, &view)?;
    Ok(Coverage {
        alloc,
        object: map.object(),
        runs,
        events,
    })
}

/// The one consolidated file of what a coverage stands for. Beside a map of the object it is read as a
/// coverage that stands for the same.
pub fn write_consolidated(alloc: Global, coverage: &Coverage<'_>) -> Result<Vec<u8>, AllocError>
    ensures file { IfOk result (λ bytes. IsFileOf coverage.now bytes.items) }
    ensures reads_back { IfOk result (λ bytes. IsReadOf coverage.now.object bytes.items coverage.now) }
{
    let runs = coverage.runs.as_slice();
    let events = coverage.events.as_slice();
    let starts = starts_among(alloc, events)?;
    let vectors = vectors_among(alloc, events)?;
    let parts = ConsolidatedParts {
        object: coverage.object.closing,
        runs,
        starts: starts.as_slice(),
        vectors: vectors.as_slice(),
    };
    trace_format::write_consolidated(alloc, &parts)
}
