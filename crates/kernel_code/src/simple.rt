//! The code of operations that hold no others.

ghost use Rattle.std.specs.Prelude.{◌≡◌, ◌+◌, ◌-◌, ◌++◌, [], ◌∷◌, map, OnOk};
ghost use Rattle.rv_isa.specs.declared.ops.BranchOp.TheVariants.{Beq, Bltu};
ghost use Rattle.rv_isa.specs.declared.ops.ImmediateOp.TheVariants.{Addi};
ghost use Rattle.rv_isa.specs.declared.ops.ShiftOp.TheVariants as shifts;
ghost use Rattle.rv_isa.specs.declared.ops.RegisterOp.TheVariants as registers;
ghost use Rattle.rv_isa.specs.declared.instr.Instr.TheVariants.{Load, Store, Immediate, Ecall};
ghost use Rattle.kernel_code.specs.Set.{setting_of};
ghost use Rattle.assembler.specs.declared.piece.Item.TheVariants.{Plain};
ghost use Rattle.kernel_code.specs.Line.{starts, plain, jump, checks, steers};
ghost use Rattle.kernel_code.specs.Words.{high, low, load_slot, store_slot, load_constant};
ghost use Rattle.kernel_code.specs.SimpleCode.{branch, raising, simple_lines};

use crate::arithmetic::raises;
use crate::emitter::Emitter;
use crate::frame::Frame;
use crate::instructions::{a3, a4, addi, exception, high, low};
use crate::line::Said;
use crate::sizes::layout_words;
use assembler::Item;
use cov_base::{InstId, StmtId, number_after};
use kernel_ir::{Simple, Slot};
use rv_isa::{BranchOp, Instr, Reg};
use std::alloc::AllocError;

impl Emitter {
    /// Asks for the next word of the input.
    #[tactic(auto, using(crate::proofs::Lines::lines_assoc))]
    fn ask(&mut self) -> Result<(), AllocError>
        ensures { OnOk result (self.new ≡ self.old ++ (map plain (Immediate Addi 12 0 4 ∷ Immediate Addi 17 0 1 ∷ []) ++
            (plain Ecall ∷ []))) }
    {
        self.straight(&[raises(4), addi(Reg::a7(), Reg::zero(), 1), Instr::Ecall])
    }

    /// The check that there was one.
    #[tactic(auto, using(crate::proofs::Lines::lines_assoc))]
    fn check_input(&mut self, raise_to: u32, place: u32) -> Result<(), AllocError>
        ensures { OnOk result (self.new ≡ self.old ++ branch checks Beq 11 0 (place + 5) ∷ jump raise_to ∷ []) }
    {
        self.check_past(raise_to, BranchOp::Beq, Reg::a1(), Reg::zero(), place, 5)
    }

    /// The next word of the input.
    pub(crate) fn get(&mut self, raise_to: u32, place: u32, to: Slot) -> Result<(), AllocError>
        ensures { OnOk result (self.new ≡ self.old ++ (map plain (Immediate Addi 12 0 4 ∷ Immediate Addi 17 0 1 ∷ [])
            ++ (plain Ecall ∷ (branch checks Beq 11 0 (place + 5) ∷ (jump raise_to ∷ map plain (store_slot 10 to [])))))) }
    {
        self.ask()?;
        self.check_input(raise_to, place)?;
        self.store_left(to)
    }

    /// Puts the value of a slot.
    #[tactic(auto, using(crate::proofs::Lines::lines_assoc))]
    pub(crate) fn put_word(&mut self, from: Slot) -> Result<(), AllocError>
        ensures { OnOk result (self.new ≡ self.old ++ (map plain (load_slot 10 from (Immediate Addi 17 0 2 ∷ [])) ++ (plain Ecall ∷ []))) }
    {
        self.load_slot(Reg::a0(), from)?;
        self.straight(&[addi(Reg::a7(), Reg::zero(), 2), Instr::Ecall])
    }

    /// Raises an exception.
    #[tactic(auto, using(crate::proofs::Lines::lines_assoc))]
    pub(crate) fn raise(&mut self, raise_to: u32, number: u32) -> Result<(), AllocError>
        ensures { OnOk result (self.new ≡ self.old ++ (map plain (load_constant 12 number []) ++ (jump raise_to ∷ []))) }
    {
        self.load_constant(exception(), u64::from(number))?;
        self.jump(raise_to)
    }

    /// Raises the exception whose number is in a slot, if there are so many.
    #[tactic(auto, using(crate::proofs::Lines::lines_assoc))]
    pub(crate) fn raise_slot(
        &mut self,
        raise_to: u32,
        place: u32,
        slot: Slot,
        exceptions: u32,
    ) -> Result<(), AllocError>
        ensures { OnOk result (self.new ≡ self.old ++ (map plain
            (load_slot 12 slot (Immediate Addi 13 12 0xfff ∷ load_constant 14 exceptions []))
            ++ (branch steers Bltu 13 14 (place + 8) ∷ (plain (Immediate Addi 12 0 2) ∷ (jump raise_to ∷ []))))) }
    {
        self.bound_exception(slot, exceptions)?;
        self.steer_past(BranchOp::Bltu, a3(), a4(), place, 8)?;
        self.plain(raises(2))?;
        self.jump(raise_to)
    }

    /// The number of the exception in a slot, and what it has to be below.
    #[tactic(auto, using(crate::proofs::Lines::lines_assoc))]
    fn bound_exception(&mut self, slot: Slot, exceptions: u32) -> Result<(), AllocError>
        ensures { OnOk result (self.new ≡ self.old ++ map plain
            (load_slot 12 slot (Immediate Addi 13 12 0xfff ∷ load_constant 14 exceptions []))) }
    {
        let number = exception();
        self.load_slot(number, slot)?;
        self.plain(addi(a3(), number, 0xfff))?;
        self.load_constant(a4(), u64::from(exceptions))
    }

    /// The line that is executed once for each start of a statement.
    #[tactic(auto, using(crate::proofs::Lines::lines_assoc))]
    pub(crate) fn start(&mut self, statement: StmtId, instance: InstId) -> Result<(), AllocError>
        ensures { OnOk result (self.new ≡ self.old ++ record {
          item = Plain
              (Immediate Addi 0 0 0);
          said = starts statement instance;
        } ∷ []) }
    {
        let item = Item::Plain(addi(Reg::zero(), Reg::zero(), 0));
        self.put(
            item,
            Said::Starts {
                statement,
                instance,
            },
        )
    }

    /// An operation, of which the first line stands at a place.
    #[tactic(auto, using(crate::proofs::Lines::lines_assoc))]
    pub fn simple(
        &mut self,
        frame: &Frame<'_>,
        raise_to: u32,
        place: u32,
        simple: Simple,
    ) -> Result<(), AllocError>
        ensures { OnOk result (self.new ≡ self.old ++ simple_lines (setting_of frame.now) raise_to place simple) }
    {
        match simple {
            Simple::Number { to, value } => self.number(to, value),
            Simple::Move { to, from } => self.move_word(to, from),
            Simple::Compare {
                relation,
                to,
                left,
                right,
            } => self.compare(relation, to, left, right),
            Simple::Complement { to, from } => self.complement(to, from),
            Simple::Negate { to, from } => self.negate(raise_to, place, to, from),
            Simple::Absolute { to, from } => self.absolute(raise_to, place, to, from),
            Simple::Arithmetic {
                operator,
                to,
                left,
                right,
            } => self.arithmetic(raise_to, place, operator, to, left, right),
            Simple::Within { slot, low, high } => self.within(raise_to, place, slot, low, high),
            Simple::Index {
                to,
                from,
                low,
                high,
                size,
            } => self.index(raise_to, place, to, from, low, high, size),
            Simple::Offset { to, left, right } => self.offset(to, left, right),
            Simple::Advance { to, from, by } => self.advance(to, from, by),
            Simple::FrameAddress { to, slot } => self.frame_address(to, slot),
            Simple::LibraryAddress { to, word } => self.library_address(to, word),
            Simple::Load { to, address } => self.load_word(raise_to, place, to, address),
            Simple::Store { address, from } => self.store_word(raise_to, place, address, from),
            Simple::ReadLibrary { to, word } => self.read_library(to, word),
            Simple::WriteLibrary { word, from } => self.write_library(word, from),
            Simple::Copy { to, from, words } => self.copy(raise_to, place, to, from, words),
            Simple::Fill { at, layout } => {
                let piece = number_after(frame.first_layout, layout)?;
                let words = layout_words(frame, layout);
                self.fill(raise_to, place, at, words, piece)
            }
            Simple::Start {
                statement,
                instance,
            } => self.start(statement, instance),
            Simple::Get { to } => self.get(raise_to, place, to),
            Simple::Put { from } => self.put_word(from),
            Simple::Raise { exception } => self.raise(raise_to, exception),
            Simple::RaiseSlot { slot } => self.raise_slot(raise_to, place, slot, frame.exceptions),
        }
    }
}
