//! A trace file that is read from its front, a part at a time.

ghost use Rattle.std.specs.Prelude.{◌≡◌, ◌≢◌, ◌↔◌, ℕ, ◌+◌, ◌^◌, ◌<◌, ◌≤◌, ◌⊎◌, List, [], ◌∷◌, ◌++◌, length, take, drop, string_bytes, None, Some, IfOk, IfErr, OnOk, OnErr, IsErrOf, Ok};
ghost use Rattle.sha2.specs.Sha256.{sha256};
ghost use Rattle.cov_base.specs.declared.failure.Failure.TheVariants.{Fault};
ghost use Rattle.cov_io.specs.Outside.{Rose, IsAbsent};
ghost use Rattle.trace_format.specs.declared.entry.Entry.{Entry};
ghost use Rattle.trace_format.specs.declared.entry.ReaderFault.{ReaderFault};
ghost use Rattle.trace_format.specs.declared.entry.ReaderFault.TheVariants.{Read, Trace};
ghost use Rattle.trace_format.specs.declared.reader.Stage.TheVariants.{Closed, Failed};
ghost use Rattle.trace_format.specs.declared.reader.Stage.TheVariants as stages;
ghost use Rattle.trace_format.specs.Places.{closing_of};
ghost use Rattle.trace_format.specs.Stream.{AreTold, StandsAt};
ghost use Rattle.trace_format.specs.Reader.{read_failure, format_failure, IsCause, InHead, InBlocks, InHistory, Reads, Answers, Takes, Gives, verdict_of, file_name, IsEnd, GaveBlocks, GaveHistory, Began, Gave, and_then};

use crate::check::{InOrder, KnownEdge, KnownFlags};
use crate::entry::{Entry, ReaderFault};
use crate::fault::TraceFault;
use crate::head::{Head, head_of};
use crate::stream::Stream;
use crate::trace::{Block, HistoryEntry};
use crate::watch::Watch;
use cov_base::{Digest, Failure};
use cov_io::{FileFault, Files};
use spelling::{Fixed, LayerFault};
use std::alloc::Global;

/// How many bytes stand in front of the blocks.
const HEAD: usize = 48;

/// How many bytes an entry of either list takes.
const ENTRY: usize = 9;

/// How many bytes are asked for behind the entries: the digest, and one more to tell whether the file
/// goes on.
const TAIL: usize = 33;

/// Where a reader stands.
#[derive(Clone, Copy)]
pub enum Stage {
    Head,
    Blocks { left: u32 },
    History { left: u32 },
    Closed,
    Failed(Failure<ReaderFault>),
}

/// A trace file that is read from its front. Of the file at most one part of 65,536 bytes is in memory.
pub struct TraceReader {
    stream: Stream,
    head: Head,
    stage: Stage,
    order: Watch<Block, InOrder>,
    flags: Watch<Block, KnownFlags>,
    edges: Watch<HistoryEntry, KnownEdge>,
}

// Written out: a derived drop is proved anew in each crate above.
impl Drop for TraceReader {
    fn drop(self) {
        let TraceReader {
            stream: _,
            head: _,
            stage: _,
            order: _,
            flags: _,
            edges: _,
        } = self;
    }
}

impl TraceReader {
    /// A reader of the file of this name, which has read its front. It is given the same files at each
    /// call, and what they hold of the name stays.
    ///
    /// It answers `Read` where a read failed, and the fault of the format that the front shows.
    pub fn open<F: Files>(
        alloc: Global,
        files: &mut F,
        name: &str,
    ) -> Result<TraceReader, Failure<ReaderFault>>
        ensures name { IfOk result (λ reader. file_name reader ≡ name.now) }
        ensures reads { (bytes : List ℕ) → AreTold (F.held files.old) name.now bytes
            → IfOk result (λ reader. Reads reader bytes []) }
        ensures cause { (bytes : List ℕ) → AreTold (F.held files.old) name.now bytes → IfErr result (IsCause bytes) }
        ensures gave { IfOk result (λ reader. Gave reader []) }
        ensures fresh { IfOk result (λ reader. reader.stage ≡ stages.Head) }

        ensures same { F.held files.new ≡ F.held files.old }
        ensures failed { IsErrOf result (Fault Read)
            → Rose (F.reads_failed files.old) (F.reads_failed files.new) ⊎ IsAbsent (F.held files.old) name.now }
        ensures stays { result ≢ Err (Fault Read) → F.reads_failed files.new ≡ F.reads_failed files.old }
        ensures later { F.reads_failed files.old ≤ F.reads_failed files.new }
        ensures writes { F.writes_failed files.new ≡ F.writes_failed files.old }
    {
        let mut stream = Stream::new(alloc, name)?;
        let mut front = [0; HEAD];
        let got = stream.fill(files, &mut front).map_err(failed)?;
        let head = match head_of(&front[..got]) {
            Ok(head) => head,
            Err(fault) => return Err(refused(fault)),
        };
        Ok(TraceReader {
            stream,
            head,
            stage: Stage::Head,
            order: Watch::new(),
            flags: Watch::new(),
            edges: Watch::new(),
        })
    }

    /// What stands next in the file: its head, its blocks, its history, its closing digest, and then
    /// nothing more. The digest comes where the file passes all checks of the format.
    ///
    /// It answers `Read` where a read failed, and the first check of the format that the file fails, as
    /// soon as it is known; after a fault that fault again.
    pub fn next<F: Files>(&mut self, files: &mut F) -> Result<Option<Entry>, Failure<ReaderFault>>
        ensures answers { (bytes : List ℕ) (given : List Entry) → AreTold (F.held files.old) (file_name self.old) bytes
            → Reads self.old bytes given → Answers result self.new bytes given }

        // What comes in which order, whatever the files hold.
        ensures gave { (given : List Entry) → Gave self.old given → Gave self.new (and_then given result) }
        ensures closes { IfOk result (λ answer. IsEnd answer ↔ (self.new.stage ≡ Closed)) }

        // After a fault that fault again, and after the closing digest nothing.
        ensures fails { (failure : Failure ReaderFault) → (self.new.stage ≡ Failed failure) ↔ (result ≡ Err failure) }
        ensures again { (failure : Failure ReaderFault) → self.old.stage ≡ Failed failure → result ≡ Err failure }
        ensures ended { self.old.stage ≡ Closed ↔ (result ≡ Ok None) }

        ensures name { file_name self.new ≡ file_name self.old }
        ensures same { F.held files.new ≡ F.held files.old }
        ensures failed { IsErrOf result (Fault Read)
            → Rose (F.reads_failed files.old) (F.reads_failed files.new)
            ⊎ IsAbsent (F.held files.old) (file_name self.old)
            ⊎ (self.old.stage ≡ Failed (Fault Read)) }
        ensures stays { result ≢ Err (Fault Read) → F.reads_failed files.new ≡ F.reads_failed files.old }
        ensures later { F.reads_failed files.old ≤ F.reads_failed files.new }
        ensures writes { F.writes_failed files.new ≡ F.writes_failed files.old }
    {
        let answer = self.advance(files);
        if let Err(failure) = answer {
            self.stage = Stage::Failed(failure);
        }
        answer
    }

    /// What stands next, where a fault is not kept yet.
    fn advance<F: Files>(&mut self, files: &mut F) -> Result<Option<Entry>, Failure<ReaderFault>>
        ensures answers { (bytes : List ℕ) (given : List Entry) → AreTold (F.held files.old) (file_name self.old) bytes
            → Reads self.old bytes given → Answers result self.new bytes given }
        ensures gave { (given : List Entry) → Gave self.old given
            → IfOk result (λ _. Gave self.new (and_then given result)) }
        ensures began { (given : List Entry) → Gave self.old given → OnErr result (Began given) }
        ensures closes { IfOk result (λ answer. IsEnd answer ↔ (self.new.stage ≡ Closed)) }
        ensures unfailed { OnOk result ((failure : Failure ReaderFault) → self.new.stage ≢ Failed failure) }
        ensures again { (failure : Failure ReaderFault) → self.old.stage ≡ Failed failure → result ≡ Err failure }
        ensures ended { self.old.stage ≡ Closed ↔ (result ≡ Ok None) }
        ensures name { file_name self.new ≡ file_name self.old }
        ensures same { F.held files.new ≡ F.held files.old }
        ensures failed { IsErrOf result (Fault Read)
            → Rose (F.reads_failed files.old) (F.reads_failed files.new)
            ⊎ IsAbsent (F.held files.old) (file_name self.old)
            ⊎ (self.old.stage ≡ Failed (Fault Read)) }
        ensures stays { result ≢ Err (Fault Read) → F.reads_failed files.new ≡ F.reads_failed files.old }
        ensures later { F.reads_failed files.old ≤ F.reads_failed files.new }
        ensures writes { F.writes_failed files.new ≡ F.writes_failed files.old }
    {
        match self.stage {
            Stage::Head => {
                self.stage = Stage::Blocks {
                    left: self.head.blocks,
                };
                Ok(Some(Entry::Head {
                    object: self.head.object,
                    ending: self.head.ending,
                }))
            }
            Stage::Blocks { left } => Ok(Some(self.among_blocks(files, left)?)),
            Stage::History { left } => Ok(Some(self.in_history(files, left)?)),
            Stage::Closed => Ok(None),
            Stage::Failed(failure) => Err(failure),
        }
    }

    /// What stands next, where so many blocks are left.
    #[inline(never)]
    fn among_blocks<F: Files>(
        &mut self,
        files: &mut F,
        left: u32,
    ) -> Result<Entry, Failure<ReaderFault>>
        ensures gives { (bytes : List ℕ) (given : List Entry) → AreTold (F.held files.old) (file_name self.old) bytes
            → InBlocks self.old bytes given left → Gives result self.new bytes given }
        ensures gave { (given : List Entry) → GaveBlocks given left
            → IfOk result (λ entry. Gave self.new (given ++ entry ∷ [])) }
        ensures closes { IfOk result (λ entry. IsEnd (Some entry) ↔ (self.new.stage ≡ Closed)) }
        ensures unfailed { OnOk result ((failure : Failure ReaderFault) → self.new.stage ≢ Failed failure) }
        ensures name { file_name self.new ≡ file_name self.old }
        ensures same { F.held files.new ≡ F.held files.old }
        ensures failed { IsErrOf result (Fault Read)
            → Rose (F.reads_failed files.old) (F.reads_failed files.new)
            ⊎ IsAbsent (F.held files.old) (file_name self.old) }
        ensures stays { result ≢ Err (Fault Read) → F.reads_failed files.new ≡ F.reads_failed files.old }
        ensures later { F.reads_failed files.old ≤ F.reads_failed files.new }
        ensures writes { F.writes_failed files.new ≡ F.writes_failed files.old }
    {
        if left > 0 {
            return self.next_block(files, left - 1);
        }
        let entries = self.begin_history(files)?;
        self.in_history(files, entries)
    }

    /// What stands next, where so many entries of the history are left.
    #[inline(always)]
    fn in_history<F: Files>(
        &mut self,
        files: &mut F,
        left: u32,
    ) -> Result<Entry, Failure<ReaderFault>>
        ensures gives { (bytes : List ℕ) (given : List Entry) → AreTold (F.held files.old) (file_name self.old) bytes
            → InHistory self.old bytes given left → Gives result self.new bytes given }
        ensures gave { (given : List Entry) → GaveHistory given left
            → IfOk result (λ entry. Gave self.new (given ++ entry ∷ [])) }
        ensures closes { IfOk result (λ entry. IsEnd (Some entry) ↔ (self.new.stage ≡ Closed)) }
        ensures unfailed { OnOk result ((failure : Failure ReaderFault) → self.new.stage ≢ Failed failure) }
        ensures name { file_name self.new ≡ file_name self.old }
        ensures same { F.held files.new ≡ F.held files.old }
        ensures failed { IsErrOf result (Fault Read)
            → Rose (F.reads_failed files.old) (F.reads_failed files.new)
            ⊎ IsAbsent (F.held files.old) (file_name self.old) }
        ensures stays { result ≢ Err (Fault Read) → F.reads_failed files.new ≡ F.reads_failed files.old }
        ensures later { F.reads_failed files.old ≤ F.reads_failed files.new }
        ensures writes { F.writes_failed files.new ≡ F.writes_failed files.old }
    {
        if left == 0 {
            return self.close(files);
        }
        self.next_history(files, left - 1)
    }

    /// The next block, behind which so many are left.
    fn next_block<F: Files>(
        &mut self,
        files: &mut F,
        left: u32,
    ) -> Result<Entry, Failure<ReaderFault>>
        ensures gives { (bytes : List ℕ) (given : List Entry) → AreTold (F.held files.old) (file_name self.old) bytes
            → InBlocks self.old bytes given (left + 1) → Gives result self.new bytes given }
        ensures gave { (given : List Entry) → GaveBlocks given (left + 1)
            → IfOk result (λ entry. Gave self.new (given ++ entry ∷ [])) }
        ensures closes { IfOk result (λ entry. IsEnd (Some entry) ↔ (self.new.stage ≡ Closed)) }
        ensures unfailed { OnOk result ((failure : Failure ReaderFault) → self.new.stage ≢ Failed failure) }
        ensures name { file_name self.new ≡ file_name self.old }
        ensures same { F.held files.new ≡ F.held files.old }
        ensures failed { IsErrOf result (Fault Read)
            → Rose (F.reads_failed files.old) (F.reads_failed files.new)
            ⊎ IsAbsent (F.held files.old) (file_name self.old) }
        ensures stays { result ≢ Err (Fault Read) → F.reads_failed files.new ≡ F.reads_failed files.old }
        ensures later { F.reads_failed files.old ≤ F.reads_failed files.new }
        ensures writes { F.writes_failed files.new ≡ F.writes_failed files.old }
    {
        let mut piece = [0; ENTRY];
        take(&mut self.stream, files, &mut piece)?;
        let block = Block::at(&piece);
        self.order.see(&block);
        self.flags.see(&block);
        self.stage = Stage::Blocks { left };
        Ok(Entry::Block {
            start: block.start,
            last: block.last,
            flags: block.flags,
        })
    }

    /// Behind the last block: how many entries the history has.
    fn begin_history<F: Files>(&mut self, files: &mut F) -> Result<u32, Failure<ReaderFault>>
        ensures begins { (bytes : List ℕ) (given : List Entry) → AreTold (F.held files.old) (file_name self.old) bytes
            → InBlocks self.old bytes given 0 → IfOk result (λ left. InHistory self.new bytes given left) }
        ensures cause { (bytes : List ℕ) (given : List Entry) → AreTold (F.held files.old) (file_name self.old) bytes
            → InBlocks self.old bytes given 0 → IfErr result (IsCause bytes) }
        ensures gave { (given : List Entry) → GaveBlocks given 0 → IfOk result (λ left. GaveHistory given left) }
        ensures name { file_name self.new ≡ file_name self.old }
        ensures same { F.held files.new ≡ F.held files.old }
        ensures failed { IsErrOf result (Fault Read)
            → Rose (F.reads_failed files.old) (F.reads_failed files.new)
            ⊎ IsAbsent (F.held files.old) (file_name self.old) }
        ensures stays { result ≢ Err (Fault Read) → F.reads_failed files.new ≡ F.reads_failed files.old }
        ensures later { F.reads_failed files.old ≤ F.reads_failed files.new }
        ensures writes { F.writes_failed files.new ≡ F.writes_failed files.old }
    {
        let mut word = [0; 4];
        take(&mut self.stream, files, &mut word)?;
        Ok(u32::at(&word))
    }

    /// The next entry of the history, behind which so many are left.
    #[inline(always)]
    fn next_history<F: Files>(
        &mut self,
        files: &mut F,
        left: u32,
    ) -> Result<Entry, Failure<ReaderFault>>
        ensures gives { (bytes : List ℕ) (given : List Entry) → AreTold (F.held files.old) (file_name self.old) bytes
            → InHistory self.old bytes given (left + 1) → Gives result self.new bytes given }
        ensures gave { (given : List Entry) → GaveHistory given (left + 1)
            → IfOk result (λ entry. Gave self.new (given ++ entry ∷ [])) }
        ensures closes { IfOk result (λ entry. IsEnd (Some entry) ↔ (self.new.stage ≡ Closed)) }
        ensures unfailed { OnOk result ((failure : Failure ReaderFault) → self.new.stage ≢ Failed failure) }
        ensures name { file_name self.new ≡ file_name self.old }
        ensures same { F.held files.new ≡ F.held files.old }
        ensures failed { IsErrOf result (Fault Read)
            → Rose (F.reads_failed files.old) (F.reads_failed files.new)
            ⊎ IsAbsent (F.held files.old) (file_name self.old) }
        ensures stays { result ≢ Err (Fault Read) → F.reads_failed files.new ≡ F.reads_failed files.old }
        ensures later { F.reads_failed files.old ≤ F.reads_failed files.new }
        ensures writes { F.writes_failed files.new ≡ F.writes_failed files.old }
    {
        let mut piece = [0; ENTRY];
        take(&mut self.stream, files, &mut piece)?;
        let entry = HistoryEntry::at(&piece);
        self.edges.see(&entry);
        self.stage = Stage::History { left };
        Ok(Entry::History {
            address: entry.address,
            x8: entry.x8,
            edge: entry.edge,
        })
    }

    /// The closing digest, where the file ends behind it, it is that of the bytes before, and no entry
    /// failed its checks.
    #[inline(never)]
    fn close<F: Files>(&mut self, files: &mut F) -> Result<Entry, Failure<ReaderFault>>
        ensures gives { (bytes : List ℕ) (given : List Entry) → AreTold (F.held files.old) (file_name self.old) bytes
            → InHistory self.old bytes given 0 → Gives result self.new bytes given }
        ensures gave { (given : List Entry) → GaveHistory given 0
            → IfOk result (λ entry. Gave self.new (given ++ entry ∷ [])) }
        ensures closes { IfOk result (λ entry. IsEnd (Some entry) ↔ (self.new.stage ≡ Closed)) }
        ensures unfailed { OnOk result ((failure : Failure ReaderFault) → self.new.stage ≢ Failed failure) }
        ensures name { file_name self.new ≡ file_name self.old }
        ensures same { F.held files.new ≡ F.held files.old }
        ensures failed { IsErrOf result (Fault Read)
            → Rose (F.reads_failed files.old) (F.reads_failed files.new)
            ⊎ IsAbsent (F.held files.old) (file_name self.old) }
        ensures stays { result ≢ Err (Fault Read) → F.reads_failed files.new ≡ F.reads_failed files.old }
        ensures later { F.reads_failed files.old ≤ F.reads_failed files.new }
        ensures writes { F.writes_failed files.new ≡ F.writes_failed files.old }
    {
        let wanted = self.stream.digest()?;
        let mut tail = [0; TAIL];
        let got = self.stream.fill(files, &mut tail).map_err(failed)?;
        let digest = match closing(&tail[..got], &wanted) {
            Ok(digest) => digest,
            Err(fault) => return Err(refused(fault)),
        };
        if let Err(fault) = self.verdict() {
            return Err(Failure::Fault(ReaderFault::Trace(fault)));
        }
        self.stage = Stage::Closed;
        Ok(Entry::Close { digest })
    }

    /// The first entry that failed a check: of the order of blocks, then of their flags, then of the
    /// edges of the history.
    fn verdict(&self) -> Result<(), TraceFault>
        ensures { result ≡ verdict_of self.now.order.failing self.now.flags.failing self.now.edges.failing }
    {
        if let Some(at) = self.order.failing() {
            return Err(TraceFault::Order { at });
        }
        if let Some(at) = self.flags.failing() {
            return Err(TraceFault::Flag { at });
        }
        if let Some(at) = self.edges.failing() {
            return Err(TraceFault::Flag { at });
        }
        Ok(())
    }
}

/// The digest that a file ends with, where it is the one that is wanted.
fn closing(tail: &[u8], wanted: &Digest) -> Result<Digest, LayerFault>
    ensures { result ≡ closing_of tail.now wanted.now }
{
    if tail.len() < wanted.len() {
        return Err(LayerFault::Short);
    }
    if tail.len() > wanted.len() {
        return Err(LayerFault::Long);
    }
    if tail != wanted.as_slice() {
        return Err(LayerFault::Damaged);
    }
    Ok(*wanted)
}

/// Takes as many bytes as `into` has room for, or answers `short`.
#[inline(always)]
fn take<F: Files>(
    stream: &mut Stream,
    files: &mut F,
    into: &mut [u8],
) -> Result<(), Failure<ReaderFault>>
    ensures takes { (bytes : List ℕ) (taken : ℕ) → AreTold (F.held files.old) (string_bytes stream.old.name) bytes
        → StandsAt stream.old bytes taken → taken < 2 ^ 40 → length into.old < 2 ^ 16
        → Takes result stream.new into.new bytes taken (length into.old) }
    ensures name { string_bytes stream.new.name ≡ string_bytes stream.old.name }
    ensures same { F.held files.new ≡ F.held files.old }
    ensures failed { IsErrOf result (Fault Read)
        → Rose (F.reads_failed files.old) (F.reads_failed files.new)
        ⊎ IsAbsent (F.held files.old) (string_bytes stream.old.name) }
    ensures stays { result ≢ Err (Fault Read) → F.reads_failed files.new ≡ F.reads_failed files.old }
    ensures later { F.reads_failed files.old ≤ F.reads_failed files.new }
    ensures writes { F.writes_failed files.new ≡ F.writes_failed files.old }
{
    let room = into.len();
    let got = stream.fill(files, into).map_err(failed)?;
    if got < room {
        return Err(refused(LayerFault::Short));
    }
    Ok(())
}

/// A read that failed.
fn failed(fault: FileFault) -> Failure<ReaderFault>
    ensures { result ≡ read_failure fault }
{
    match fault {
        FileFault::Failed => Failure::Fault(ReaderFault::Read),
        FileFault::NoMemory => Failure::WantOfMemory,
    }
}

/// A file that is no trace.
fn refused(fault: LayerFault) -> Failure<ReaderFault>
    ensures { result ≡ format_failure fault }
{
    Failure::Fault(ReaderFault::Trace(TraceFault::from(fault)))
}
