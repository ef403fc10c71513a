//! A trace: which blocks a run of an object executed, and what its branches did.

ghost use Rattle.std.specs.Prelude.{◌≡◌, ◌<◌, ◌^◌, ◌++◌, length, All, OnOk};
ghost use Rattle.spelling.specs.Format.{list_of};
ghost use Rattle.trace_format.specs.Formats.{entry_value, block_entry, block_entry_ok, block_value, block_fixed, history_entry, history_entry_ok, history_value, history_fixed, trace_parts, trace_parts_ok};

use cov_base::{Digest, Seq};
use spelling::{Fixed, Formatted, Writable, put_many};
use std::alloc::AllocError;
use std::marker::Model;

/// The bytes that begin a trace file.
pub const MAGIC: [u8; 4] = *b"GCTR";

/// The version of the format.
pub const VERSION: u32 = 1;

/// The flag of a block whose branch was taken.
pub const TAKEN: u8 = 1;

/// The flag of a block whose branch was not taken.
pub const NOT_TAKEN: u8 = 2;

/// How many bytes an entry of either list takes.
const ENTRY: usize = 9;

/// A run of instructions that are executed one after another, from `start` to the control transfer
/// at `last`. The flags say which edges of that transfer were taken in the run.
#[derive(Clone, Copy, PartialEq, Eq)]
pub struct Block {
    pub start: u32,
    pub last: u32,
    pub flags: u8,
}

/// One execution of a condition's branch: where the branch stands, the frame pointer, and 1 where
/// it was taken.
#[derive(Clone, Copy, PartialEq, Eq)]
pub struct HistoryEntry {
    pub address: u32,
    pub x8: u32,
    pub edge: u8,
}

/// What a trace file holds: the closing digest of the object that was run, how the run ended (0 for
/// return, else the number of an exception), its blocks and its history.
pub struct Trace {
    pub object: Digest,
    pub ending: u32,
    pub blocks: Seq<Block>,
    pub history: Seq<HistoryEntry>,
}

// Written out: a derived drop is proved anew in each crate above.
impl Drop for Trace {
    fn drop(self) {
        let Trace {
            object: _,
            ending: _,
            blocks: _,
            history: _,
        } = self;
    }
}

impl Formatted for Block {
    ghost format = { block_entry };

    ghost is_format = { block_entry_ok };
}

impl Writable for Block {
    ghost CountsFit = { λ _. Unit {0} };

    fn write(&self, into: &mut Vec<u8>) -> Result<(), AllocError> {
        self.start.write(into)?;
        self.last.write(into)?;
        self.flags.write(into)
    }
}

impl Fixed for Block {
    const SIZE: usize = ENTRY;

    ghost SIZE = { 9 };

    ghost value = { block_value };

    fn at(bytes: &[u8]) -> Block {
        let (start, last, flags) = entry_at(bytes);
        Block { start, last, flags }
    }

    ghost is_fixed = { block_fixed };
}

impl Formatted for HistoryEntry {
    ghost format = { history_entry };

    ghost is_format = { history_entry_ok };
}

impl Writable for HistoryEntry {
    ghost CountsFit = { λ _. Unit {0} };

    fn write(&self, into: &mut Vec<u8>) -> Result<(), AllocError> {
        self.address.write(into)?;
        self.x8.write(into)?;
        self.edge.write(into)
    }
}

impl Fixed for HistoryEntry {
    const SIZE: usize = ENTRY;

    ghost SIZE = { 9 };

    ghost value = { history_value };

    fn at(bytes: &[u8]) -> HistoryEntry {
        let (address, x8, edge) = entry_at(bytes);
        HistoryEntry { address, x8, edge }
    }

    ghost is_fixed = { history_fixed };
}

/// The two numbers and the byte of an entry of either list.
fn entry_at(bytes: &[u8]) -> (u32, u32, u8)
    requires { length bytes.now ≡ 9 }
    ensures { (result.0, (result.1, result.2)) ≡ entry_value bytes.now }
{
    let (first, rest) = bytes.split_at(4);
    let (second, rest) = rest.split_at(4);
    (u32::at(first), u32::at(second), rest[0])
}

/// The same, of entries that stand in lists of others: it is written without a copy of them.
/// Contracts see the trace.
pub struct TraceParts<'a> {
    pub object: Digest,
    pub ending: u32,
    pub blocks: &'a [Block],
    pub history: &'a [HistoryEntry],
}

// Written out: a derived drop is proved anew in each crate above.
impl<'a> Drop for TraceParts<'a> {
    fn drop(self) {
        let TraceParts {
            object: _,
            ending: _,
            blocks: _,
            history: _,
        } = self;
    }
}

impl<'a> Model for TraceParts<'a> {
    ghost use Rattle.trace_format.specs.declared.trace.Trace.{Trace};

    ghost Value = { Trace };

    ghost view = { λ t. record { object = t.object; ending = t.ending; blocks = t.blocks.now; history = t.history.now } };
}

impl<'a> Formatted for TraceParts<'a> {
    ghost format = { trace_parts };

    ghost is_format = { trace_parts_ok };
}

impl<'a> Writable for TraceParts<'a> {
    ghost CountsFit = { λ trace. (length trace.blocks < 2 ^ 32) × (length trace.history < 2 ^ 32) };

    fn write(&self, into: &mut Vec<u8>) -> Result<(), AllocError> {
        self.object.write(into)?;
        self.ending.write(into)?;
        put_list(into, self.blocks)?;
        put_list(into, self.history)
    }
}

/// Appends a list: the count of its entries, and these.
#[tactic(auto, unfolding(spelling::specs::Format::word))]
fn put_list<T: Writable>(into: &mut Vec<u8>, entries: &[T]) -> Result<(), AllocError>
    requires few { length entries.now < 2 ^ 32 }
    requires entries { All T.CountsFit entries.now }
    ensures spelled { OnOk result (into.new.items ≡ into.old.items ++ (list_of T.format).spell entries.now) }
    ensures fits { OnOk result ((list_of T.format).Fits entries.now) }
{
    (entries.len() as u32).write(into)?;
    put_many(into, entries)
}
