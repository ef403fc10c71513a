//! Pieces: code before it has an address.

ghost use Rattle.std.specs.Prelude.{◌≡◌, ◌≤◌};
ghost use Rattle.assembler.specs.Placed.{width};

use cov_base::{CondIx, DecId, InstId, Seq, StmtId};
use line_table::RoleKind;
use rv_isa::{BranchOp, Instr, Reg};

/// The number of a piece, from 0.
#[derive(Clone, Copy)]
pub struct PieceId(pub u32);

/// The place of an item in its piece, from 0. The place behind the last item is a label too.
#[derive(Clone, Copy)]
pub struct Label(pub u32);

/// What stands in a piece.
#[derive(Clone, Copy)]
pub enum Item {
    /// An instruction as it is.
    Plain(Instr),
    /// A conditional branch to a label of the same piece.
    Branch {
        op: BranchOp,
        rs1: Reg,
        rs2: Reg,
        to: Label,
    },
    /// A jump to a label of the same piece, which leaves the address behind it in `rd`.
    Jump {
        rd: Reg,
        to: Label,
    },
    /// A jump to a label of any piece, which leaves the address behind it in `rd`: a call.
    Call {
        rd: Reg,
        piece: PieceId,
        to: Label,
    },
}

impl Item {
    /// How many words the item takes.
    pub fn width(&self) -> u32
        ensures width { result ≡ width self.now }
        ensures small { result ≤ 2 }
    {
        match self {
            Item::Plain(_) | Item::Branch { .. } | Item::Jump { .. } | Item::Call { .. } => 1,
        }
    }
}

/// What is said of an item: which statement it starts, or what its branch decides.
#[derive(Clone, Copy)]
pub enum Mark {
    /// The item is executed once for each start of the statement in the instance.
    Row {
        item: Label,
        statement: StmtId,
        instance: InstId,
    },
    /// The item is a conditional branch of this kind, as `line_table::Role` has it.
    Role {
        item: Label,
        kind: RoleKind,
        decision: DecId,
        condition: CondIx,
        value: u8,
        instance: InstId,
    },
}

/// A piece of code: its items in order, and their marks. It is entered at any label.
pub struct Piece {
    pub items: Seq<Item>,
    pub marks: Seq<Mark>,
}

// Written out: a derived drop is proved anew in each crate above.
impl Drop for Piece {
    fn drop(self) {
        let Piece { items: _, marks: _ } = self;
    }
}
