//! An emitter: the lines of a piece so far.

ghost use Rattle.std.specs.Prelude.{◌≡◌, ◌+◌, ◌^◌, ◌<◌, ◌++◌, List, [], ◌∷◌, map, OnOk};
ghost use Rattle.kernel_code.specs.Line.{Line as CodeLine, plain, jump, checks, steers};
ghost use Rattle.kernel_code.specs.SimpleCode.{branch, call_piece};
ghost use Rattle.kernel_code.specs.Words.{load_slot, store_slot, load_constant};
ghost use Rattle.kernel_code.specs.View.{said_of, lines_of};

use crate::instructions::{load_constant, load_slot, store_slot};
use crate::line::{Line, Said};
use assembler::{Item, Label, PieceId};
use cov_base::number_after;
use rv_isa::{BranchOp, Instr, Reg};
use std::alloc::{AllocError, Global};
use std::marker::Model;

/// The lines of a piece so far. Contracts see them as a list.
pub struct Emitter {
    lines: Vec<Line>,
}

// Written out: a derived drop is proved anew in each crate above.
impl Drop for Emitter {
    fn drop(self) {
        let Emitter { lines: _ } = self;
    }
}

impl Model for Emitter {
    ghost use Rattle.std.specs.Prelude.{List};
    ghost use Rattle.kernel_code.specs.Line.{Line as CodeLine};
    ghost use Rattle.kernel_code.specs.View.{lines_of};

    ghost Value = { List CodeLine };

    ghost view = { λ e. lines_of e.lines.items };
}

impl Emitter {
    /// No lines.
    pub fn new(alloc: Global) -> Self
        ensures { result ≡ [] }
    {
        Emitter {
            lines: Vec::new(alloc),
        }
    }

    /// The lines.
    pub fn lines(&self) -> &[Line]
        ensures { lines_of result.now ≡ self.now }
    {
        self.lines.as_slice()
    }

    /// Puts a line behind the others.
    #[tactic(auto, using(crate::proofs::Lines::lines_push))]
    pub fn put(&mut self, item: Item, said: Said) -> Result<(), AllocError>
        ensures { OnOk result (self.new ≡ self.old ++ record { item = item; said = said_of said } ∷ []) }
    {
        self.lines.push(Line { item, said })?;
        Ok(())
    }

    /// An instruction.
    pub fn plain(&mut self, instr: Instr) -> Result<(), AllocError>
        ensures { OnOk result (self.new ≡ self.old ++ plain instr ∷ []) }
    {
        self.put(Item::Plain(instr), Said::Nothing)
    }

    /// Instructions.
    pub fn straight(&mut self, instrs: &[Instr]) -> Result<(), AllocError>
        ensures { OnOk result (self.new ≡ self.old ++ map plain instrs.now) }
    {
        for instr in instrs {
            self.plain(*instr)?;
        }
        Ok(())
    }

    /// A jump to a label of the piece.
    pub fn jump(&mut self, to: u32) -> Result<(), AllocError>
        ensures { OnOk result (self.new ≡ self.old ++ jump to ∷ []) }
    {
        let rd = Reg::zero();
        let to = Label(to);
        self.put(Item::Jump { rd, to }, Said::Nothing)
    }

    /// A branch to a label of the piece.
    pub fn branch(
        &mut self,
        said: Said,
        op: BranchOp,
        rs1: Reg,
        rs2: Reg,
        to: u32,
    ) -> Result<(), AllocError>
        ensures { OnOk result (self.new ≡ self.old ++ branch (said_of said) op rs1 rs2 to ∷ []) }
    {
        let to = Label(to);
        self.put(Item::Branch { op, rs1, rs2, to }, said)
    }

    /// A call of a piece.
    pub fn call_piece(&mut self, piece: u32) -> Result<(), AllocError>
        ensures { OnOk result (self.new ≡ self.old ++ call_piece piece ∷ []) }
    {
        let rd = Reg::ra();
        let piece = PieceId(piece);
        let to = Label(0);
        self.put(Item::Call { rd, piece, to }, Said::Nothing)
    }

    /// A register gets what a slot has.
    pub fn load_slot(&mut self, rd: Reg, slot: u32) -> Result<(), AllocError>
        ensures { OnOk result (self.new ≡ self.old ++ map plain (load_slot rd slot [])) }
    {
        self.straight(&load_slot(rd, slot))
    }

    /// A slot gets what a register has.
    pub fn store_slot(&mut self, from: Reg, slot: u32) -> Result<(), AllocError>
        ensures { OnOk result (self.new ≡ self.old ++ map plain (store_slot from slot [])) }
    {
        self.straight(&store_slot(from, slot))
    }

    /// A register gets a constant.
    pub fn load_constant(&mut self, rd: Reg, constant: u64) -> Result<(), AllocError>
        requires { constant < 2 ^ 36 }
        ensures { OnOk result (self.new ≡ self.old ++ map plain (load_constant rd constant [])) }
    {
        self.straight(&load_constant(rd, constant))
    }

    /// A check, which has set the number of its exception: where the relation of two registers holds
    /// it goes on at `past`, and else where exceptions lead.
    #[tactic(auto, using(crate::proofs::Lines::lines_assoc))]
    pub fn check(
        &mut self,
        raise_to: u32,
        op: BranchOp,
        rs1: Reg,
        rs2: Reg,
        past: u32,
    ) -> Result<(), AllocError>
        ensures { OnOk result (self.new ≡ self.old ++ branch checks op rs1 rs2 past ∷ jump raise_to ∷ []) }
    {
        self.branch(Said::Checks, op, rs1, rs2, past)?;
        self.jump(raise_to)
    }

    /// The same, where it goes on so many lines behind a place.
    pub fn check_past(
        &mut self,
        raise_to: u32,
        op: BranchOp,
        rs1: Reg,
        rs2: Reg,
        place: u32,
        lines: u32,
    ) -> Result<(), AllocError>
        ensures { OnOk result (self.new ≡ self.old ++ branch checks op rs1 rs2 (place + lines) ∷ jump raise_to ∷ []) }
    {
        let past = number_after(place, lines)?;
        self.check(raise_to, op, rs1, rs2, past)
    }

    /// A branch that steers code of its operation, to so many lines behind a place.
    pub(crate) fn steer_past(
        &mut self,
        op: BranchOp,
        rs1: Reg,
        rs2: Reg,
        place: u32,
        lines: u32,
    ) -> Result<(), AllocError>
        ensures { OnOk result (self.new ≡ self.old ++ branch steers op rs1 rs2 (place + lines) ∷ []) }
    {
        let past = number_after(place, lines)?;
        self.branch(Said::Steers, op, rs1, rs2, past)
    }
}
