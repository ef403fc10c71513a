//! A trace that is read from its front, entry by entry.

ghost use Rattle.std.specs.Prelude.{◌≡◌, ◌≢◌, ◌⊎◌, ◌++◌, ◌≤◌, ◌∷◌, ℕ, List, [], IfOk, IfErr, OnOk, IsErrOf};
ghost use Rattle.cov_base.specs.declared.failure.Failure.TheVariants.{Fault};
ghost use Rattle.cov_io.specs.Outside.{Rose, IsAbsent};
ghost use Rattle.object_format.specs.Checked.{IsSound};
ghost use Rattle.object_format.specs.declared.object.Object.{Object};
ghost use Rattle.trace_format.specs.declared.entry.Entry.{Entry};
ghost use Rattle.trace_format.specs.declared.trace.Block.{Block};
ghost use Rattle.trace_format.specs.declared.trace.HistoryEntry.{HistoryEntry};
ghost use Rattle.trace_format.specs.Checks.{Passes};
ghost use Rattle.cov_base.specs.declared.failure.Failure.{Failure};
ghost use Rattle.trace_format.specs.declared.entry.ReaderFault.{ReaderFault};
ghost use Rattle.trace_format.specs.declared.reader.Stage.TheVariants.{Closed, Failed};
ghost use Rattle.trace_format.specs.Reader.{file_name, Reads};
ghost use Rattle.trace_format.specs.Stream.{AreTold};
ghost use Rattle.trace_format.specs.Trace.{TraceFile, trace_in};
ghost use Rattle.coverage_set.specs.Consolidated.{ArePossible};
ghost use Rattle.coverage_set.specs.declared.fault.AddFault.TheVariants.{Read};
ghost use Rattle.coverage_set.specs.Read.{IsOpened, IsBlank, HasRead, TookAll, IsFew, TookTrace, TookFile, IsNext, IsUnreadFile, IsWhole, IsUnfit};

use crate::fault::{AddFault, unread};
use crate::found::Found;
use crate::set::SortedSet;
use cov_base::{Digest, Event, Failure};
use cov_io::Files;
use decision_map::{DecisionMap, FitState};
use std::alloc::{AllocError, Global};
use trace_format::{Block, Entry, HistoryEntry, TraceReader};

/// How many entries stand in front of the closing digest at most: the head, and fewer than 2^32 of each
/// list.
const MOST_ENTRIES: u64 = 8_589_934_592;

/// What the entries of a trace say that were read so far, and which checks beside the object they fail.
#[derive(Drop)]
pub struct Reading<'a> {
    fit: FitState<'a>,
    found: Found,
}

impl<'a> Reading<'a> {
    /// Nothing was read. It takes two bytes for each word of text.
    pub fn new(alloc: Global, map: &'a DecisionMap<'a>) -> Result<Self, AllocError>
        ensures { IfOk result (IsBlank map.now) }
    {
        Ok(Reading {
            fit: FitState::new(alloc, map)?,
            found: Found::new(alloc),
        })
    }

    /// Takes the next entry.
    fn see(&mut self, map: &DecisionMap<'_>, entry: Entry) -> Result<(), AllocError>
        requires { IsSound map.now }
        ensures { OnOk result ((given : List Entry) → IsFew (given ++ entry ∷ []) → TookAll map.now self.old given
            → TookAll map.now self.new (given ++ entry ∷ [])) }
    {
        self.fit.see(&entry);
        match entry {
            Entry::Block { start, last, flags } => {
                self.found.see_block(map, Block { start, last, flags })
            }
            Entry::History { address, x8, edge } => {
                self.found
                    .see_history(map, HistoryEntry { address, x8, edge })
            }
            Entry::Head { .. } | Entry::Close { .. } => Ok(()),
        }
    }

    /// Reads a trace to its end, and answers the digest that closes it.
    pub fn read<F: Files>(
        &mut self,
        map: &DecisionMap<'_>,
        files: &mut F,
        reader: &mut TraceReader,
    ) -> Result<Digest, Failure<AddFault>>
        requires sound { IsSound map.now }
        requires blank { IsBlank map.now self.old }
        requires opened { IsOpened (F.held files.old) reader.old }
        ensures took { OnOk result (TookTrace map.now self.new) }
        ensures told { (bytes : List ℕ) → AreTold (F.held files.old) (file_name reader.old) bytes
            → IfOk result (TookFile map.now self.new bytes) }
        ensures cause { (bytes : List ℕ) → AreTold (F.held files.old) (file_name reader.old) bytes
            → IfErr result (IsUnreadFile bytes) }
        ensures same { F.held files.new ≡ F.held files.old }
        ensures failed { IsErrOf result (Fault Read)
            → Rose (F.reads_failed files.old) (F.reads_failed files.new)
            ⊎ IsAbsent (F.held files.old) (file_name reader.old) }
        ensures stays { result ≢ Err (Fault Read) → F.reads_failed files.new ≡ F.reads_failed files.old }
        ensures later { F.reads_failed files.old ≤ F.reads_failed files.new }
        ensures writes { F.writes_failed files.new ≡ F.writes_failed files.old }
    {
        for _ in 0..MOST_ENTRIES {
            let entry = next_of(files, reader)?;
            if let Entry::Close { digest } = entry {
                return Ok(digest);
            }
            self.see(map, entry)?;
        }
        unreachable!()
    }

    /// All events that the trace tells, where it fits the object and its history follows.
    pub fn end(self) -> Result<SortedSet<Event>, Failure<AddFault>>
        ensures whole { (o : Object) (t : TraceFile) → IsSound o
            → HasRead o self.entry t.object t.ending t.blocks t.history → Passes (trace_in t)
            → IfOk result (IsWhole o t) }
        ensures possible { (o : Object) → IsSound o → TookTrace o self.entry → IfOk result (ArePossible o) }
        ensures unfit { (o : Object) (t : TraceFile) → IsSound o
            → HasRead o self.entry t.object t.ending t.blocks t.history → Passes (trace_in t)
            → IfErr result (IsUnfit o t) }
        ensures unread { result ≢ Err (Fault Read) }
    {
        if let Err(fault) = self.fit.end() {
            return Err(Failure::Fault(AddFault::Fit(fault)));
        }
        if let Some(at) = self.found.stopped() {
            return Err(Failure::Fault(AddFault::Broken { at }));
        }
        Ok(self.found.into_events()?)
    }
}

/// The next entry of a trace, in front of the end or at it.
#[inline(always)]
fn next_of<F: Files>(files: &mut F, reader: &mut TraceReader) -> Result<Entry, Failure<AddFault>>
    requires unclosed { reader.old.stage ≢ Closed }
    requires unfailed { (failure : Failure ReaderFault) → reader.old.stage ≢ Failed failure }
    ensures gives { IfOk result (IsNext (F.held files.old) reader.old reader.new) }
    ensures cause { (bytes : List ℕ) (given : List Entry) → AreTold (F.held files.old) (file_name reader.old) bytes
        → Reads reader.old bytes given → IfErr result (IsUnreadFile bytes) }
    ensures same { F.held files.new ≡ F.held files.old }
    ensures failed { IsErrOf result (Fault Read)
        → Rose (F.reads_failed files.old) (F.reads_failed files.new)
        ⊎ IsAbsent (F.held files.old) (file_name reader.old) }
    ensures stays { result ≢ Err (Fault Read) → F.reads_failed files.new ≡ F.reads_failed files.old }
    ensures later { F.reads_failed files.old ≤ F.reads_failed files.new }
    ensures writes { F.writes_failed files.new ≡ F.writes_failed files.old }
{
    match reader.next(files) {
        Ok(Some(entry)) => Ok(entry),
        Ok(None) => unreachable!(),
        Err(failure) => Err(unread(failure)),
    }
}
