//! A trace file that is read in place.

ghost use Rattle.std.specs.Prelude.{◌≡◌, ◌<◌, ◌^◌, length, IfOk, Ok, Some, slice_get};
ghost use Rattle.trace_format.specs.Trace.{TraceFile, trace_in};
ghost use Rattle.trace_format.specs.Formats.{trace_spelling};
ghost use Rattle.trace_format.specs.Checks.{IsClosed, layered, trace_of};

use crate::check::{InOrder, KnownEdge, KnownFlags};
use crate::fault::TraceFault;
use crate::trace::{Block, HistoryEntry, MAGIC, VERSION};
use cov_base::Digest;
use spelling::{Entries, LayerFault, closed, first_failing_at, opened, read_digest, read_u32};
use std::marker::Model;

/// A trace file that passed the checks which need no object. Its entries stay where they are, and
/// contracts see the trace with its closing digest.
pub struct TraceView<'a> {
    object: Digest,
    ending: u32,
    blocks: Entries<'a, Block>,
    history: Entries<'a, HistoryEntry>,
    closing: Digest,
}

// Written out: a derived drop is proved anew in each crate above.
impl Drop for TraceView<'_> {
    fn drop(self) {
        let TraceView {
            object: _,
            ending: _,
            blocks: _,
            history: _,
            closing: _,
        } = self;
    }
}

impl<'a> Model for TraceView<'a> {
    ghost Value = { TraceFile };

    ghost view = { λ t. record { object = t.object; ending = t.ending; blocks = t.blocks; history = t.history; closing = t.closing } };

    ghost invariant = { λ t. (length t.blocks < 2 ^ 32) × (length t.history < 2 ^ 32)
        × IsClosed (record { object = t.object; ending = t.ending; blocks = t.blocks; history = t.history; closing = t.closing }) };
}

/// What stands in a trace file whose layers are right, before its entries are looked at.
#[derive(Drop)]
struct Layers<'a> {
    object: Digest,
    ending: u32,
    blocks: Entries<'a, Block>,
    history: Entries<'a, HistoryEntry>,
    closing: Digest,
}

impl<'a> Model for Layers<'a> {
    ghost Value = { TraceFile };

    ghost view = { λ t. record { object = t.object; ending = t.ending; blocks = t.blocks; history = t.history; closing = t.closing } };

    ghost invariant = { λ t. (length t.blocks < 2 ^ 32) × (length t.history < 2 ^ 32) };
}

impl<'a> TraceView<'a> {
    /// A view of the bytes of a trace file, or the first check that fails. It takes no memory.
    pub fn view(bytes: &'a [u8]) -> Result<TraceView<'a>, TraceFault>
        // What is read is spelled so, and passes.
        ensures found { IfOk result (λ t. IsClosed t × (bytes.now ≡ trace_spelling (trace_in t))) }

        // What is spelled so, and passes, is read.
        ensures only { (t : TraceFile) → IsClosed t → bytes.now ≡ trace_spelling (trace_in t) → result ≡ Ok t }

        // Which check is the first to fail.
        ensures exact { result ≡ trace_of bytes.now }
    {
        checked(bytes)
    }

    /// The closing digest of the object that was run. A view passed the checks of the format, which
    /// is told here to those who hold a trace to its object.
    pub fn object(&self) -> Digest
        ensures value { result ≡ self.now.object }
        ensures passed { IsClosed self.now }
    {
        self.object
    }

    /// How the run ended: 0 for return, else the number of an exception.
    pub fn ending(&self) -> u32
        ensures { result ≡ self.now.ending }
    {
        self.ending
    }

    /// How many blocks there are. Their starts rise, since the view passed the checks.
    pub fn blocks(&self) -> u32
        ensures count { result ≡ length self.now.blocks }
        ensures passed { IsClosed self.now }
    {
        self.blocks.len() as u32
    }

    /// The block at a place.
    pub fn block(&self, at: u32) -> Block
        requires { at < length self.now.blocks }
        ensures { slice_get self.now.blocks at ≡ Some result }
    {
        self.blocks.get(u64::from(at))
    }

    /// How many entries the history has.
    pub fn history(&self) -> u32
        ensures { result ≡ length self.now.history }
    {
        self.history.len() as u32
    }

    /// The entry of the history at a place.
    pub fn entry(&self, at: u32) -> HistoryEntry
        requires { at < length self.now.history }
        ensures { slice_get self.now.history at ≡ Some result }
    {
        self.history.get(u64::from(at))
    }

    /// The closing digest of the file.
    pub fn closing(&self) -> Digest
        ensures { result ≡ self.now.closing }
    {
        self.closing
    }
}

/// What the checks answer, one after another.
#[tactic(auto, unfolding(crate::specs::Checks::trace_of))]
fn checked(bytes: &[u8]) -> Result<TraceView<'_>, TraceFault>
    ensures { result ≡ trace_of bytes.now }
{
    let layers = layers_of(bytes)?;
    if let Some(at) = first_failing_at::<Block, InOrder>(&layers.blocks) {
        return Err(TraceFault::Order { at: at as u32 });
    }
    if let Some(at) = first_failing_at::<Block, KnownFlags>(&layers.blocks) {
        return Err(TraceFault::Flag { at: at as u32 });
    }
    if let Some(at) = first_failing_at::<HistoryEntry, KnownEdge>(&layers.history) {
        return Err(TraceFault::Flag { at: at as u32 });
    }
    Ok(TraceView {
        object: layers.object,
        ending: layers.ending,
        blocks: layers.blocks,
        history: layers.history,
        closing: layers.closing,
    })
}

/// What stands in the bytes of a trace file.
fn layers_of(bytes: &[u8]) -> Result<Layers<'_>, LayerFault>
    ensures { result ≡ layered bytes.now }
{
    let (version, rest) = opened(&MAGIC, bytes)?;
    if version != VERSION {
        return Err(LayerFault::Version);
    }
    let (object, rest) = read_digest(rest)?;
    let (ending, rest) = read_u32(rest)?;
    let (blocks, rest) = Entries::read_list(rest)?;
    let (history, rest) = Entries::read_list(rest)?;
    let closing = closed(bytes, rest)?;
    Ok(Layers {
        object,
        ending,
        blocks,
        history,
        closing,
    })
}
