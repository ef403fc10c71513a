//! What a word of text does to the flow of control.

ghost use Rattle.std.specs.Prelude.{◌≡◌, IfOk};
ghost use Rattle.decision_map.specs.Kinds.{kind_of_instr, kind_of_word, kinds_of_text};

use rv_isa::{Instr, decode};
use std::alloc::{AllocError, Global};

/// What executing a word of text does to the flow of control.
#[derive(Clone, Copy, Debug, PartialEq, Eq)]
pub enum WordKind {
    /// The word behind it is executed next.
    GoesOn,
    /// A jump or an environment call: it ends a block, and has no edges.
    Transfer,
    /// A conditional branch, of whose executions no history is kept.
    Branch,
    /// A conditional branch of which each execution is kept: that of a condition of a decision whose
    /// graph is no tree.
    HistoryBranch,
    /// No block runs through it: a breakpoint, or no instruction.
    Stop,
}

impl WordKind {
    ghost use Rattle.decision_map.specs.Kinds.{has_edges, keeps_history};

    /// Whether the word is a conditional branch.
    pub fn has_edges(self) -> bool
        ensures { result ≡ has_edges self }
    {
        matches!(self, WordKind::Branch | WordKind::HistoryBranch)
    }

    /// Whether each of its executions is kept.
    pub fn keeps_history(self) -> bool
        ensures { result ≡ keeps_history self }
    {
        matches!(self, WordKind::HistoryBranch)
    }
}

/// The kind of an instruction by itself. Whether a branch needs a history isn't seen by its word.
fn kind_of_instr(instr: &Instr) -> WordKind
    ensures { result ≡ kind_of_instr (Some instr.now) }
{
    match instr {
        Instr::Branch { .. } => WordKind::Branch,
        Instr::Jal { .. } | Instr::Jalr { .. } | Instr::Ecall => WordKind::Transfer,
        Instr::Ebreak => WordKind::Stop,
        Instr::Upper { .. }
        | Instr::Load { .. }
        | Instr::Store { .. }
        | Instr::Immediate { .. }
        | Instr::Shift { .. }
        | Instr::Register { .. }
        | Instr::Fence { .. } => WordKind::GoesOn,
    }
}

/// The kind of a word by itself.
#[tactic(auto, unfolding(crate::specs::Kinds::kind_of_word))]
fn kind_of_word(word: u32) -> WordKind
    ensures { result ≡ kind_of_word word }
{
    match decode(word) {
        Some(instr) => kind_of_instr(&instr),
        None => WordKind::Stop,
    }
}

/// The kinds of the words of a text by themselves.
pub(crate) fn kinds_of(alloc: Global, text: &[u32]) -> Result<Vec<WordKind>, AllocError>
    ensures { IfOk result (λ kinds. kinds.items ≡ kinds_of_text text.now) }
{
    text.iter().map(|word| kind_of_word(*word)).collect(alloc)
}
