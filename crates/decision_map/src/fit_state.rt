//! The checks that hold a trace to its object, made as its entries come.

ghost use Rattle.std.specs.Prelude.{◌≡◌, ◌++◌, ◌-◌, ◌^◌, ◌<◌, ◌&&◌, ◌==◌, not, ℕ, List, [], ◌∷◌, length, true, false, IfOk, IfSome, None, Some, if◌then◌else◌};
ghost use Rattle.std.specs.Option.{option_or};
ghost use Rattle.std.specs.Result.{result_err};
ghost use Rattle.cov_base.specs.Marks.{same};
ghost use Rattle.object_format.specs.declared.object.Object.{Object};
ghost use Rattle.trace_format.specs.Trace.{TraceFile, trace_in};
ghost use Rattle.trace_format.specs.Checks.{Passes};
ghost use Rattle.trace_format.specs.Reader.{block_given, history_given};
ghost use Rattle.trace_format.specs.declared.entry.Entry.TheVariants as entries;
ghost use Rattle.trace_format.specs.declared.trace.Block.{Block};
ghost use Rattle.trace_format.specs.declared.trace.HistoryEntry.{HistoryEntry};
ghost use Rattle.decision_map.specs.Blocks.{is_block, agrees};
ghost use Rattle.decision_map.specs.Kinds.{has_edges, kind_in, kinds_of_text};
ghost use Rattle.decision_map.specs.Fits.{fault_of, foreign, beyond_exceptions};
ghost use Rattle.decision_map.specs.Seen.{shows_in, shown_with, edges_with, trace_with, IsFresh, HasSeen};

use crate::fault::FitFault;
use crate::fit::shows_edge;
use crate::map::DecisionMap;
use crate::places::place_of;
use cov_base::Digest;
use std::alloc::{AllocError, Global};
use trace_format::{Block, Entry, HistoryEntry};

/// Which edges of the branch at a word blocks have shown.
#[derive(Clone, Copy)]
pub struct Shown {
    taken: bool,
    not_taken: bool,
}

/// What was found of a trace's entries, of which each is seen once, in the file's order. Of each check it
/// keeps the first that fails it, and of each word of text which edges were shown.
pub struct FitState<'a> {
    map: &'a DecisionMap<'a>,
    head: Option<FitFault>,
    before: Option<Block>,
    block: Option<FitFault>,
    edge: Option<FitFault>,
    shown: Vec<Shown>,
    entries: u32,
    address: Option<FitFault>,
    flat: Option<FitFault>,
}

// Written out: a derived drop is proved anew in each crate above.
impl Drop for FitState<'_> {
    fn drop(self) {
        let FitState {
            map: _,
            head: _,
            before: _,
            block: _,
            edge: _,
            shown: _,
            entries: _,
            address: _,
            flat: _,
        } = self;
    }
}

impl<'a> FitState<'a> {
    /// Before the first entry. It takes two bytes for each word of text.
    pub fn new(alloc: Global, map: &'a DecisionMap<'a>) -> Result<Self, AllocError>
        ensures { IfOk result (λ state. IsFresh map.now state) }
    {
        let mut shown = Vec::new(alloc);
        for _ in 0..map.words() {
            shown.push(Shown {
                taken: false,
                not_taken: false,
            })?;
        }
        Ok(FitState {
            map,
            head: None,
            before: None,
            block: None,
            edge: None,
            shown,
            entries: 0,
            address: None,
            flat: None,
        })
    }

    /// Takes the next entry of a trace: its head, then its blocks, then its history, then its closing
    /// digest.
    pub fn see(&mut self, entry: &Entry)
        ensures head { (o : Object) (object : List ℕ) (ending : ℕ) → IsFresh o self.old
            → entry.now ≡ entries.Head object ending
            → HasSeen o self.new object ending [] [] }
        ensures block { (o : Object) (object : List ℕ) (ending : ℕ) (blocks : List Block) (block : Block)
            → HasSeen o self.old object ending blocks [] → entry.now ≡ block_given block
            → HasSeen o self.new object ending (blocks ++ block ∷ []) [] }
        ensures history { (o : Object) (object : List ℕ) (ending : ℕ) (blocks : List Block)
            (history : List HistoryEntry) (next : HistoryEntry)
            → HasSeen o self.old object ending blocks history → length history < 2 ^ 32 - 1
            → entry.now ≡ history_given next
            → HasSeen o self.new object ending blocks (history ++ next ∷ []) }
        ensures close { (digest : List ℕ) → entry.now ≡ entries.Close digest → self.new ≡ self.old }
    {
        match *entry {
            Entry::Head { object, ending } => self.head = head_fault(self.map, &object, ending),
            Entry::Block { start, last, flags } => self.see_block(Block { start, last, flags }),
            Entry::History { address, x8, edge } => self.see_history(HistoryEntry {
                address,
                x8,
                edge,
            }),
            Entry::Close { .. } => {}
        }
    }

    /// Whether the trace fits the object, where all its entries were seen: the first check that fails.
    pub fn end(&self) -> Result<(), FitFault>
        ensures { (o : Object) (t : TraceFile) → HasSeen o self.now t.object t.ending t.blocks t.history
            → Passes (trace_in t)
            → result_err result ≡ fault_of o t }
    {
        let found = either(self.head, self.block);
        let found = either(either(found, self.edge), self.address);
        match either(found, self.flat) {
            Some(fault) => Err(fault),
            None => Ok(()),
        }
    }

    /// Takes the next block. Behind one that is none of the text's, no other is looked at.
    fn see_block(&mut self, block: Block)
        ensures { (o : Object) (object : List ℕ) (ending : ℕ) (blocks : List Block)
            → HasSeen o self.old object ending blocks []
            → HasSeen o self.new object ending (blocks ++ block ∷ []) [] }
    {
        if self.block.is_some() {
            return;
        }
        if !is_next_block(self.map, self.before, block) {
            self.block = Some(FitFault::NotABlock { start: block.start });
            return;
        }
        let passes = has_its_flags(self.map, self.before, block);
        note(
            &mut self.edge,
            passes,
            FitFault::Edge { start: block.start },
        );
        show(&mut self.shown, block);
        self.before = Some(block);
    }

    /// Takes the next entry of the history.
    fn see_history(&mut self, entry: HistoryEntry)
        ensures { (o : Object) (object : List ℕ) (ending : ℕ) (blocks : List Block) (history : List HistoryEntry)
            → HasSeen o self.old object ending blocks history → length history < 2 ^ 32 - 1
            → HasSeen o self.new object ending blocks (history ++ entry ∷ []) }
    {
        let at = self.entries;
        let kept = self.map.needs_history(entry.address);
        note(&mut self.address, kept, FitFault::HistoryAddress { at });
        let shown = shows(&self.shown, entry);
        note(&mut self.flat, shown, FitFault::HistoryNotFlat { at });
        self.entries = at.saturating_add(1);
    }
}

/// The first fault of a trace's head: it is another object's, or ended by an exception that the object
/// doesn't hold.
fn head_fault(map: &DecisionMap<'_>, kept: &Digest, ending: u32) -> Option<FitFault>
    ensures { result ≡ option_or (foreign map.now (trace_with kept.now ending))
        (beyond_exceptions map.now (trace_with kept.now ending)) }
{
    let object = map.object();
    if *kept != object.closing {
        return Some(FitFault::Foreign {
            kept: *kept,
            object: object.closing,
        });
    }
    if ending as usize > object.obligations.exceptions.len() {
        return Some(FitFault::Ending);
    }
    None
}

/// Whether a block is one of the text, where the one before it is.
fn is_next_block(map: &DecisionMap<'_>, before: Option<Block>, block: Block) -> bool
    ensures { IfSome before (λ (k : Block). is_block (kinds_of_text map.now.text) k ≡ true)
        → result ≡ is_block (kinds_of_text map.now.text) block }
{
    if block.start % 4 != 0 {
        return false;
    }
    match before {
        Some(known) if known.start < block.start && block.start <= known.last => {
            block.last == known.last
        }
        _ => map.block_end(block.start) == Some(block.last),
    }
}

/// Whether a block has flags exactly where it ends with a conditional branch, and those of the block
/// before it where both end there.
fn has_its_flags(map: &DecisionMap<'_>, before: Option<Block>, block: Block) -> bool
    ensures { result ≡ (same (not (block.flags == 0))
        (has_edges (kind_in (kinds_of_text map.now.text) block.last)) && agrees before block) }
{
    (block.flags != 0) == map.has_edges(block.last)
        && before.is_none_or(|known| known.last != block.last || known.flags == block.flags)
}

/// Keeps which edges a block shows.
fn show(shown: &mut Vec<Shown>, block: Block)
    ensures { shown.new.items ≡ shown_with shown.old.items block }
{
    let Some(place) = place_of(block.last) else {
        return;
    };
    if place >= shown.len() {
        return;
    }
    shown[place] = edges_with(shown[place], block.flags);
}

/// What was shown, and the edges that flags have.
fn edges_with(known: Shown, flags: u8) -> Shown
    ensures { result ≡ edges_with known flags }
{
    Shown {
        taken: known.taken | shows_edge(flags, 1),
        not_taken: known.not_taken | shows_edge(flags, 0),
    }
}

/// Whether a block showed the edge of an entry.
fn shows(shown: &[Shown], entry: HistoryEntry) -> bool
    ensures { result ≡ shows_in shown.now entry }
{
    let Some(place) = place_of(entry.address) else {
        return false;
    };
    let Some(known) = shown.get(place) else {
        return false;
    };
    if entry.edge == 0 {
        known.not_taken
    } else {
        known.taken
    }
}

/// Keeps the fault where none was found before and the check doesn't pass.
fn note(found: &mut Option<FitFault>, passes: bool, fault: FitFault)
    ensures { found.new ≡ option_or found.old (if passes then None else Some fault) }
{
    if passes || found.is_some() {
        return;
    }
    *found = Some(fault);
}

/// The first of two faults.
fn either(first: Option<FitFault>, second: Option<FitFault>) -> Option<FitFault>
    ensures { result ≡ option_or first second }
{
    match first {
        Some(fault) => Some(fault),
        None => second,
    }
}
