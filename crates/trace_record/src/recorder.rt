//! The recorder.

ghost use Rattle.std.specs.Prelude.{◌≡◌, ◌++◌, ℕ, List, [], ◌∷◌, ◌<◌, ◌^◌, length, false, IfOk, OnOk, OnErr, IsOk, Ok, Option, Bool};
ghost use Rattle.decision_map.specs.Roles.{needs_history};
ghost use Rattle.object_facts.specs.Kinds.{ends_piece};
ghost use Rattle.object_facts.specs.Object.{facts_of, IsTranscript};
ghost use Rattle.object_format.specs.Checked.{IsSound};
ghost use Rattle.rv_semantics.specs.declared.stepped.Seen.{Seen};
ghost use Rattle.trace_format.specs.Checks.{trace_of};
ghost use Rattle.trace_format.specs.Formats.{trace_spelling, trace_digest};
ghost use Rattle.trace_format.specs.Trace.{closed_by};
ghost use Rattle.transcript.specs.Pieces.{lengthened, IsEnded};
ghost use Rattle.trace_record.specs.Recorded.{Records, piece_of};
ghost use Rattle.trace_record.specs.Written.{traced};

use crate::blocks::blocks_of;
use crate::history::keep;
use crate::mark::{Mark, set_bit, set_edge};
use decision_map::{DecisionMap, WordKind};
use object_format::Object;
use std::alloc::{AllocError, Global};
use std::marker::Model;
use trace_format::{HistoryEntry, TraceParts, write_parts};

/// The instructions that were executed one after another since the last control transfer: the
/// addresses of the first and of the last.
#[derive(Clone, Copy, PartialEq, Eq)]
pub struct OpenPiece {
    pub start: u32,
    pub last: u32,
}

/// What is kept of a run of an object: a mark for each word of its text, the piece that no control
/// transfer has ended yet, and the history of the branches that need one.
pub struct Recorder<'a> {
    alloc: Global,
    map: DecisionMap<'a>,
    marks: Vec<Mark>,
    open_piece: Option<OpenPiece>,
    history: Vec<HistoryEntry>,
}

// Written out: a derived drop is proved anew in each crate above.
impl Drop for Recorder<'_> {
    fn drop(self) {
        let Recorder {
            alloc: _,
            map: _,
            marks: _,
            open_piece: _,
            history: _,
        } = self;
    }
}

impl<'a> Model for Recorder<'a> {
    ghost use Rattle.trace_record.specs.Recorded.{Recorded, piece_of};

    ghost Value = { Recorded };

    ghost view = { λ r. record {
      object = r.map;
      marks = r.marks.items;
      open_piece = piece_of r.open_piece;
      history = r.history.items;
    } };
}

impl<'a> Recorder<'a> {
    /// A recorder of a run of an object that has not begun. It takes room for all that is kept but
    /// the history.
    pub fn new(alloc: Global, object: &'a Object) -> Result<Self, AllocError>
        requires { IsSound object.now }
        ensures object { IfOk result (λ r. r.object ≡ object.now) }
        ensures recorded { IfOk result (λ r. Records r []) }
    {
        let map = DecisionMap::of(alloc, object)?;
        let marks = vec![in alloc; Mark(0); object.text.len()]?;
        Ok(Recorder {
            alloc,
            map,
            marks,
            open_piece: None,
            history: Vec::new(alloc),
        })
    }
}

impl Recorder<'_> {
    /// Sees an executed instruction: where it stands, the edge that it took if it is a conditional
    /// branch, and the frame pointer before it. Memory is taken only for a branch that needs a
    /// history. It is done at each step, so a call would be dear.
    #[inline(always)]
    pub fn see(&mut self, pc: u32, edge: Option<bool>, x8: u32) -> Result<(), AllocError>
        // Of a transcript that the instruction goes on, the recorder then records the longer one.
        ensures recorded { OnOk result ((ss : List Seen) → Records self.old ss
            → IsTranscript self.old.object (ss ++ record { pc = pc; edge = edge; x8 = x8 } ∷ [])
            → Records self.new (ss ++ record { pc = pc; edge = edge; x8 = x8 } ∷ [])) }
        ensures object { self.new.object ≡ self.old.object }
        ensures refused { OnErr result (self.new ≡ self.old) }
        ensures needs_no_memory { needs_history self.old.object pc ≡ false → IsOk result }
    {
        keep(&self.map, &mut self.history, pc, edge, x8)?;
        set_edge(&mut self.marks, pc, edge);
        let start = start_of(self.open_piece, pc);
        if ends_piece(self.map.kind(pc)) {
            set_bit(&mut self.marks, start, Mark::STARTS);
            self.open_piece = None;
        } else {
            self.open_piece = Some(OpenPiece { start, last: pc });
        }
        Ok(())
    }
}

impl Recorder<'_> {
    /// The trace file of the run that was seen, whose ending has this number: 0 for return, else the
    /// number of an exception.
    pub fn trace(&self, ending: u32) -> Result<Vec<u8>, AllocError>
        // Nothing was seen, or the last instruction was a control transfer.
        requires recorded { (ss : List Seen) × Records self.now ss × IsEnded (facts_of self.now.object) ss }
        requires short_history { length self.now.history < 2 ^ 32 }
        ensures written { IfOk result (λ bytes. (ss : List Seen) → Records self.now ss
            → IsEnded (facts_of self.now.object) ss
            → bytes.items ≡ trace_spelling (traced self.now.object ss ending)) }

        // What was written is read as that trace, closed by the digest that ends the bytes.
        ensures reads_back { IfOk result (λ bytes. (ss : List Seen) → Records self.now ss
            → IsEnded (facts_of self.now.object) ss
            → trace_of bytes.items ≡ Ok (closed_by (traced self.now.object ss ending)
            (trace_digest (traced self.now.object ss ending)))) }
    {
        let blocks = blocks_of(self.alloc, &self.map, self.marks.as_slice())?;
        let trace = TraceParts {
            object: self.map.object().closing,
            ending,
            blocks: blocks.as_slice(),
            history: self.history.as_slice(),
        };
        write_parts(self.alloc, &trace)
    }
}

/// Where the piece starts that an instruction goes on, or begins where none is open.
fn start_of(open_piece: Option<OpenPiece>, pc: u32) -> u32
    ensures { result ≡ (lengthened (piece_of open_piece) pc).start }
{
    match open_piece {
        Some(piece) => piece.start,
        None => pc,
    }
}

/// Whether a word of this kind is a control transfer.
fn ends_piece(kind: WordKind) -> bool
    ensures { result ≡ ends_piece kind }
{
    matches!(
        kind,
        WordKind::Transfer | WordKind::Branch | WordKind::HistoryBranch
    )
}
