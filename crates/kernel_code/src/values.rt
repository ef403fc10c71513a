//! Code that sets slots to values and never raises.

ghost use Rattle.std.specs.Prelude.{◌≡◌, ◌+◌, ◌-◌, ◌++◌, [], ◌∷◌, map, OnOk};
ghost use Rattle.rv_isa.specs.declared.ops.ImmediateOp.TheVariants.{Addi, Sltiu, Xori};
ghost use Rattle.rv_isa.specs.declared.ops.ShiftOp.TheVariants as shifts;
ghost use Rattle.rv_isa.specs.declared.ops.RegisterOp.TheVariants as registers;
ghost use Rattle.rv_isa.specs.declared.instr.Instr.TheVariants.{Immediate, Register};
ghost use Rattle.rv_semantics.specs.Arithmetic.{unsigned};
ghost use Rattle.kernel_code.specs.Line.{plain};
ghost use Rattle.kernel_code.specs.Words.{high, low, load_slot, store_slot, load_constant};
ghost use Rattle.kernel_code.specs.SimpleCode.{relate};

use crate::emitter::Emitter;
use crate::instructions::{addi, immediate, register};
use kernel_ir::{Relation, Slot};
use rv_isa::{ImmediateOp, Reg, RegisterOp};
use std::alloc::AllocError;

impl Emitter {
    /// A number.
    #[tactic(auto, using(crate::proofs::Lines::lines_assoc))]
    pub(crate) fn number(&mut self, to: Slot, value: i32) -> Result<(), AllocError>
        ensures { OnOk result (self.new ≡ self.old ++ map plain (load_constant 10 (unsigned value) (store_slot 10 to []))) }
    {
        self.load_constant(Reg::a0(), u64::from(value.cast_unsigned()))?;
        self.store_slot(Reg::a0(), to)
    }

    /// The value of another slot.
    #[tactic(auto, using(crate::proofs::Lines::lines_assoc))]
    pub(crate) fn move_word(&mut self, to: Slot, from: Slot) -> Result<(), AllocError>
        ensures { OnOk result (self.new ≡ self.old ++ map plain (load_slot 10 from (store_slot 10 to []))) }
    {
        self.load_slot(Reg::a0(), from)?;
        self.store_slot(Reg::a0(), to)
    }

    /// `x10` gets 1 where it and `x11` are in a relation, and else 0.
    fn relate_words(&mut self, relation: Relation) -> Result<(), AllocError>
        ensures { OnOk result (self.new ≡ self.old ++ map plain (relate relation [])) }
    {
        let (x, y) = (Reg::a0(), Reg::a1());
        let difference = register(RegisterOp::Sub, x, x, y);
        let less = register(RegisterOp::Slt, x, x, y);
        let greater = register(RegisterOp::Slt, x, y, x);
        let opposite = immediate(ImmediateOp::Xori, x, x, 1);
        match relation {
            Relation::Equal => {
                self.straight(&[difference, immediate(ImmediateOp::Sltiu, x, x, 1)])
            }
            Relation::Unequal => {
                self.straight(&[difference, register(RegisterOp::Sltu, x, Reg::zero(), x)])
            }
            Relation::Less => self.plain(less),
            Relation::AtMost => self.straight(&[greater, opposite]),
            Relation::Greater => self.plain(greater),
            Relation::AtLeast => self.straight(&[less, opposite]),
        }
    }

    /// 1 where `x10` and `x11` are in a relation, and else 0.
    #[tactic(auto, using(crate::proofs::Lines::lines_assoc))]
    pub(crate) fn relate(&mut self, relation: Relation, to: Slot) -> Result<(), AllocError>
        ensures { OnOk result (self.new ≡ self.old ++ map plain (relate relation (store_slot 10 to []))) }
    {
        self.relate_words(relation)?;
        self.store_left(to)
    }

    /// 1 where two slots are in a relation, and else 0.
    #[tactic(auto, using(crate::proofs::Lines::lines_assoc))]
    pub(crate) fn compare(
        &mut self,
        relation: Relation,
        to: Slot,
        left: Slot,
        right: Slot,
    ) -> Result<(), AllocError>
        ensures { OnOk result (self.new ≡ self.old ++ map plain
            (load_slot 10 left (load_slot 11 right (relate relation (store_slot 10 to []))))) }
    {
        self.load_slot(Reg::a0(), left)?;
        self.load_slot(Reg::a1(), right)?;
        self.relate(relation, to)
    }

    /// The sum of a slot and a number, which wraps.
    #[tactic(auto, using(crate::proofs::Lines::lines_assoc))]
    pub(crate) fn advance(&mut self, to: Slot, from: Slot, by: i32) -> Result<(), AllocError>
        ensures { OnOk result (self.new ≡ self.old ++ map plain
            (load_slot 10 from (load_constant 11 (unsigned by) (Register registers.Add 10 10 11 ∷ store_slot 10 to [])))) }
    {
        self.load_slot(Reg::a0(), from)?;
        self.load_constant(Reg::a1(), u64::from(by.cast_unsigned()))?;
        self.plain(register(RegisterOp::Add, Reg::a0(), Reg::a0(), Reg::a1()))?;
        self.store_slot(Reg::a0(), to)
    }

    /// A slot gets 0 where `x10` is 1, and else 1.
    #[tactic(auto, using(crate::proofs::Lines::lines_assoc))]
    fn invert(&mut self, to: Slot) -> Result<(), AllocError>
        ensures { OnOk result (self.new ≡ self.old ++ map plain
            (Immediate Addi 10 10 0xfff ∷ Register registers.Sltu 10 0 10 ∷ store_slot 10 to [])) }
    {
        let x = Reg::a0();
        self.straight(&[
            addi(x, x, 0xfff),
            register(RegisterOp::Sltu, x, Reg::zero(), x),
        ])?;
        self.store_slot(x, to)
    }

    /// 0 where another slot is 1, and else 1.
    #[tactic(auto, using(crate::proofs::Lines::lines_assoc))]
    pub(crate) fn complement(&mut self, to: Slot, from: Slot) -> Result<(), AllocError>
        ensures { OnOk result (self.new ≡ self.old ++ map plain
            (load_slot 10 from (Immediate Addi 10 10 0xfff ∷ Register registers.Sltu 10 0 10 ∷ store_slot 10 to []))) }
    {
        self.load_slot(Reg::a0(), from)?;
        self.invert(to)
    }

    /// `x10` gets what a slot has.
    pub(crate) fn load_left(&mut self, slot: Slot) -> Result<(), AllocError>
        ensures { OnOk result (self.new ≡ self.old ++ map plain (load_slot 10 slot [])) }
    {
        self.load_slot(Reg::a0(), slot)
    }

    /// `x11` gets what a slot has.
    pub(crate) fn load_right(&mut self, slot: Slot) -> Result<(), AllocError>
        ensures { OnOk result (self.new ≡ self.old ++ map plain (load_slot 11 slot [])) }
    {
        self.load_slot(Reg::a1(), slot)
    }

    /// A slot gets `x10`.
    pub(crate) fn store_left(&mut self, to: Slot) -> Result<(), AllocError>
        ensures { OnOk result (self.new ≡ self.old ++ map plain (store_slot 10 to [])) }
    {
        self.store_slot(Reg::a0(), to)
    }

    /// A slot gets the sum of `x10` and `x11`, which wraps.
    #[tactic(auto, using(crate::proofs::Lines::lines_assoc))]
    fn add_words(&mut self, to: Slot) -> Result<(), AllocError>
        ensures { OnOk result (self.new ≡ self.old ++ map plain (Register registers.Add 10 10 11 ∷ store_slot 10 to [])) }
    {
        self.plain(register(RegisterOp::Add, Reg::a0(), Reg::a0(), Reg::a1()))?;
        self.store_slot(Reg::a0(), to)
    }

    /// The sum of two slots, which wraps.
    pub(crate) fn offset(&mut self, to: Slot, left: Slot, right: Slot) -> Result<(), AllocError>
        ensures { OnOk result (self.new ≡ self.old ++ map plain
            (load_slot 10 left (load_slot 11 right (Register registers.Add 10 10 11 ∷ store_slot 10 to [])))) }
    {
        self.load_left(left)?;
        self.load_right(right)?;
        self.add_words(to)
    }
}
