//! Arithmetic and checks of ranges.

ghost use Rattle.std.specs.Prelude.{◌≡◌, ◌+◌, ◌-◌, ◌^◌, ◌<◌, ◌++◌, [], ◌∷◌, map, OnOk};
ghost use Rattle.rv_isa.specs.declared.ops.UpperOp.TheVariants.{Lui};
ghost use Rattle.rv_isa.specs.declared.ops.BranchOp.TheVariants.{Beq, Bne};
ghost use Rattle.rv_isa.specs.declared.ops.ImmediateOp.TheVariants.{Addi, Slti};
ghost use Rattle.rv_isa.specs.declared.ops.ShiftOp.TheVariants as shifts;
ghost use Rattle.rv_isa.specs.declared.ops.RegisterOp.TheVariants as registers;
ghost use Rattle.rv_isa.specs.declared.instr.Instr.TheVariants.{Upper, Immediate, Register};
ghost use Rattle.kernel_ir.specs.declared.simple.Operator.TheVariants as operators;
ghost use Rattle.kernel_code.specs.Line.{plain, jump, checks};
ghost use Rattle.kernel_code.specs.Words.{high, low, load_slot, store_slot, load_constant};
ghost use Rattle.kernel_code.specs.SimpleCode.{branch, checked, operate_front, operate_test, operate_back, raising, compare_bounds};

use crate::emitter::Emitter;
use crate::instructions::{a3, a4, addi, exception, immediate, lui, register, shift};
use kernel_ir::{Operator, Slot};
use rv_isa::{BranchOp, ImmediateOp, Instr, Reg, RegisterOp, ShiftOp};
use std::alloc::AllocError;

/// What sets the number of the exception that a check raises.
pub(crate) fn raises(number: u16) -> Instr
    requires { number < 2 ^ 12 }
    ensures { result ≡ Immediate Addi 12 0 number }
{
    addi(exception(), Reg::zero(), number)
}

impl Emitter {
    /// The number of the exception that a check raises.
    #[tactic(auto, using(crate::proofs::Lines::lines_assoc))]
    pub(crate) fn raising(&mut self, number: u16) -> Result<(), AllocError>
        requires { number < 2 ^ 12 }
        ensures { OnOk result (self.new ≡ self.old ++ map plain (raising number)) }
    {
        self.plain(raises(number))
    }

    /// `x13` is 0 where `x11` lies between two numbers, and `x10` is the lower one.
    #[tactic(auto, using(crate::proofs::Lines::lines_assoc))]
    pub(crate) fn compare_bounds(&mut self, lower: i32, upper: i32) -> Result<(), AllocError>
        ensures { OnOk result (self.new ≡ self.old ++ map plain (compare_bounds lower upper)) }
    {
        let (x, y, below, above) = (Reg::a0(), Reg::a1(), a3(), a4());
        self.load_constant(x, u64::from(lower.cast_unsigned()))?;
        self.load_constant(above, u64::from(upper.cast_unsigned()))?;
        self.straight(&[
            register(RegisterOp::Slt, below, y, x),
            register(RegisterOp::Slt, above, above, y),
            register(RegisterOp::Add, below, below, above),
            raises(1),
        ])
    }

    /// The check of a range.
    #[tactic(auto, using(crate::proofs::Lines::lines_assoc))]
    pub(crate) fn within(
        &mut self,
        raise_to: u32,
        place: u32,
        slot: Slot,
        lower: i32,
        upper: i32,
    ) -> Result<(), AllocError>
        ensures { OnOk result (self.new ≡ self.old ++ checked raise_to place
            (load_slot 11 slot (compare_bounds lower upper)) Beq 13 0 []) }
    {
        self.load_slot(Reg::a1(), slot)?;
        self.compare_bounds(lower, upper)?;
        self.check_past(raise_to, BranchOp::Beq, a3(), Reg::zero(), place, 13)
    }

    /// How far a component lies behind the first one.
    #[tactic(auto, using(crate::proofs::Lines::lines_assoc))]
    pub(crate) fn index(
        &mut self,
        raise_to: u32,
        place: u32,
        to: Slot,
        from: Slot,
        lower: i32,
        upper: i32,
        size: u32,
    ) -> Result<(), AllocError>
        ensures { OnOk result (self.new ≡ self.old ++ checked raise_to place (load_slot 11 from (compare_bounds lower upper)) Beq 13 0
            (Register registers.Sub 11 11 10 ∷ load_constant 13 size (Register registers.Mul 11 11 13 ∷ store_slot 11 to []))) }
    {
        self.within(raise_to, place, from, lower, upper)?;
        self.scale(size, to)
    }

    /// A slot gets so many times the difference of `x11` and `x10`.
    #[tactic(auto, using(crate::proofs::Lines::lines_assoc))]
    fn scale(&mut self, size: u32, to: Slot) -> Result<(), AllocError>
        ensures { OnOk result (self.new ≡ self.old ++ map plain
            (Register registers.Sub 11 11 10 ∷ load_constant 13 size (Register registers.Mul 11 11 13 ∷ store_slot 11 to []))) }
    {
        let (y, factor) = (Reg::a1(), a3());
        self.plain(register(RegisterOp::Sub, y, y, Reg::a0()))?;
        self.load_constant(factor, u64::from(size))?;
        self.plain(register(RegisterOp::Mul, y, y, factor))?;
        self.store_slot(y, to)
    }

    /// The check of a sum, a difference or a product, and a slot gets it.
    #[tactic(auto, using(crate::proofs::Lines::lines_assoc))]
    fn check_result(&mut self, raise_to: u32, place: u32, to: Slot) -> Result<(), AllocError>
        ensures { OnOk result (self.new ≡ self.old ++ branch checks Beq 13 11 (place + 12) ∷ jump raise_to
            ∷ map plain (store_slot 14 to [])) }
    {
        self.check_past(raise_to, BranchOp::Beq, a3(), Reg::a1(), place, 12)?;
        self.store_slot(a4(), to)
    }

    /// The sum of `x10` and `x11`.
    #[tactic(auto, using(crate::proofs::Lines::lines_assoc))]
    pub(crate) fn add(&mut self, raise_to: u32, place: u32, to: Slot) -> Result<(), AllocError>
        ensures { OnOk result (self.new ≡ self.old ++ (map plain (operate_front operators.Add ++ raising 1) ++
            (branch checks (operate_test operators.Add).op (operate_test operators.Add).left (operate_test operators.Add).right
            (place + 12) ∷ jump raise_to ∷ map plain (operate_back operators.Add (store_slot 14 to []))))) }
    {
        let (x, y, sum) = (Reg::a0(), Reg::a1(), a4());
        self.straight(&[
            register(RegisterOp::Add, sum, x, y),
            register(RegisterOp::Slt, a3(), sum, x),
            immediate(ImmediateOp::Slti, y, y, 0),
            raises(1),
        ])?;
        self.check_result(raise_to, place, to)
    }

    /// The difference of `x10` and `x11`.
    #[tactic(auto, using(crate::proofs::Lines::lines_assoc))]
    pub(crate) fn subtract(&mut self, raise_to: u32, place: u32, to: Slot) -> Result<(), AllocError>
        ensures { OnOk result (self.new ≡ self.old ++ (map plain (operate_front operators.Subtract ++ raising 1) ++
            (branch checks (operate_test operators.Subtract).op (operate_test operators.Subtract).left
            (operate_test operators.Subtract).right (place + 12) ∷ jump raise_to ∷ map plain
            (operate_back operators.Subtract (store_slot 14 to []))))) }
    {
        let (x, y, difference) = (Reg::a0(), Reg::a1(), a4());
        self.straight(&[
            register(RegisterOp::Sub, difference, x, y),
            register(RegisterOp::Slt, a3(), difference, x),
            register(RegisterOp::Slt, y, Reg::zero(), y),
            raises(1),
        ])?;
        self.check_result(raise_to, place, to)
    }

    /// The product of `x10` and `x11`.
    #[tactic(auto, using(crate::proofs::Lines::lines_assoc))]
    pub(crate) fn multiply(&mut self, raise_to: u32, place: u32, to: Slot) -> Result<(), AllocError>
        ensures { OnOk result (self.new ≡ self.old ++ (map plain (operate_front operators.Multiply ++ raising 1) ++
            (branch checks (operate_test operators.Multiply).op (operate_test operators.Multiply).left
            (operate_test operators.Multiply).right (place + 12) ∷ jump raise_to ∷ map plain
            (operate_back operators.Multiply (store_slot 14 to []))))) }
    {
        let (x, y, product) = (Reg::a0(), Reg::a1(), a4());
        self.straight(&[
            register(RegisterOp::Mul, product, x, y),
            register(RegisterOp::Mulh, a3(), x, y),
            shift(ShiftOp::Srai, y, product, 31),
            raises(1),
        ])?;
        self.check_result(raise_to, place, to)
    }

    /// The quotient of `x10` and `x11`.
    #[tactic(auto, using(crate::proofs::Lines::lines_assoc))]
    pub(crate) fn divide(&mut self, raise_to: u32, place: u32, to: Slot) -> Result<(), AllocError>
        ensures { OnOk result (self.new ≡ self.old ++ map plain (operate_front operators.Divide ++ raising 1) ++
            (branch checks (operate_test operators.Divide).op (operate_test operators.Divide).left
            (operate_test operators.Divide).right (place + 17) ∷ jump raise_to ∷ map plain
            (operate_back operators.Divide (store_slot 14 to [])))) }
    {
        let (x, y, passes, part) = (Reg::a0(), Reg::a1(), a3(), a4());
        let zero = Reg::zero();
        self.straight(&[
            lui(passes, 0x8_0000),
            register(RegisterOp::Sub, passes, x, passes),
            register(RegisterOp::Sltu, passes, zero, passes),
            addi(part, y, 1),
            register(RegisterOp::Sltu, part, zero, part),
            register(RegisterOp::Add, passes, passes, part),
            register(RegisterOp::Sltu, part, zero, y),
            register(RegisterOp::Mul, passes, passes, part),
            raises(1),
        ])?;
        self.check_past(raise_to, BranchOp::Bne, passes, zero, place, 17)?;
        let quotient = part;
        self.plain(register(RegisterOp::Div, quotient, x, y))?;
        self.store_slot(quotient, to)
    }

    /// The modulus of `x10` and `x11`.
    #[tactic(auto, using(crate::proofs::Lines::lines_assoc))]
    pub(crate) fn modulo(&mut self, raise_to: u32, place: u32, to: Slot) -> Result<(), AllocError>
        ensures { OnOk result (self.new ≡ self.old ++ map plain (operate_front operators.Modulo ++ raising 1) ++
            (branch checks (operate_test operators.Modulo).op (operate_test operators.Modulo).left
            (operate_test operators.Modulo).right (place + 9) ∷ jump raise_to ∷ map plain
            (operate_back operators.Modulo (store_slot 14 to [])))) }
    {
        let (x, y, more, modulus) = (Reg::a0(), Reg::a1(), a3(), a4());
        self.raising(1)?;
        self.check_past(raise_to, BranchOp::Bne, y, Reg::zero(), place, 9)?;
        self.straight(&[
            register(RegisterOp::Rem, modulus, x, y),
            register(RegisterOp::Mulh, more, modulus, y),
            immediate(ImmediateOp::Slti, more, more, 0),
            register(RegisterOp::Mul, more, more, y),
            register(RegisterOp::Add, modulus, modulus, more),
        ])?;
        self.store_slot(modulus, to)
    }

    /// The remainder of `x10` and `x11`.
    #[tactic(auto, using(crate::proofs::Lines::lines_assoc))]
    pub(crate) fn remainder(
        &mut self,
        raise_to: u32,
        place: u32,
        to: Slot,
    ) -> Result<(), AllocError>
        ensures { OnOk result (self.new ≡ self.old ++ (map plain (operate_front operators.Remainder ++ raising 1) ++
            (branch checks (operate_test operators.Remainder).op (operate_test operators.Remainder).left
            (operate_test operators.Remainder).right (place + 9) ∷ jump raise_to ∷ map plain
            (operate_back operators.Remainder (store_slot 14 to []))))) }
    {
        let (y, remainder) = (Reg::a1(), a4());
        self.raising(1)?;
        self.check_past(raise_to, BranchOp::Bne, y, Reg::zero(), place, 9)?;
        self.plain(register(RegisterOp::Rem, remainder, Reg::a0(), y))?;
        self.store_slot(remainder, to)
    }

    /// The check that `x11` is not the least word.
    #[tactic(auto, using(crate::proofs::Lines::lines_assoc))]
    fn check_least(&mut self, raise_to: u32, place: u32) -> Result<(), AllocError>
        ensures { OnOk result (self.new ≡ self.old ++ (map plain (Upper Lui 13 0x80000 ∷ raising 1) ++
            (branch checks Bne 11 13 (place + 7) ∷ jump raise_to ∷ []))) }
    {
        self.straight(&[lui(a3(), 0x8_0000), raises(1)])?;
        self.check_past(raise_to, BranchOp::Bne, Reg::a1(), a3(), place, 7)
    }

    /// A slot gets the opposite of `x11`.
    #[tactic(auto, using(crate::proofs::Lines::lines_assoc))]
    fn opposite(&mut self, to: Slot) -> Result<(), AllocError>
        ensures { OnOk result (self.new ≡ self.old ++ map plain (Register registers.Sub 11 0 11 ∷ store_slot 11 to [])) }
    {
        let y = Reg::a1();
        self.plain(register(RegisterOp::Sub, y, Reg::zero(), y))?;
        self.store_slot(y, to)
    }

    /// `x11` gets its magnitude.
    fn take_magnitude(&mut self) -> Result<(), AllocError>
        ensures { OnOk result (self.new ≡ self.old ++ map plain
            (Immediate Slti 13 11 0 ∷ Register registers.Add 13 13 13 ∷ Immediate Addi 14 0 1 ∷ Register registers.Sub 14 14 13
            ∷ Register registers.Mul 11 11 14 ∷ [])) }
    {
        let (y, twice, sign) = (Reg::a1(), a3(), a4());
        self.straight(&[
            immediate(ImmediateOp::Slti, twice, y, 0),
            register(RegisterOp::Add, twice, twice, twice),
            addi(sign, Reg::zero(), 1),
            register(RegisterOp::Sub, sign, sign, twice),
            register(RegisterOp::Mul, y, y, sign),
        ])
    }

    /// A slot gets `x11`.
    fn store_right(&mut self, to: Slot) -> Result<(), AllocError>
        ensures { OnOk result (self.new ≡ self.old ++ map plain (store_slot 11 to [])) }
    {
        self.store_slot(Reg::a1(), to)
    }

    /// Unary minus.
    pub(crate) fn negate(
        &mut self,
        raise_to: u32,
        place: u32,
        to: Slot,
        from: Slot,
    ) -> Result<(), AllocError>
        ensures { OnOk result (self.new ≡ self.old ++ checked raise_to place
            (load_slot 11 from (Upper Lui 13 0x80000 ∷ raising 1)) Bne 11 13 (Register registers.Sub 11 0 11 ∷ store_slot 11 to [])) }
    {
        self.load_right(from)?;
        self.check_least(raise_to, place)?;
        self.opposite(to)
    }

    /// The absolute value.
    pub(crate) fn absolute(
        &mut self,
        raise_to: u32,
        place: u32,
        to: Slot,
        from: Slot,
    ) -> Result<(), AllocError>
        ensures { OnOk result (self.new ≡ self.old ++ checked raise_to place
            (load_slot 11 from (Upper Lui 13 0x80000 ∷ raising 1)) Bne 11 13
            (Immediate Slti 13 11 0 ∷ Register registers.Add 13 13 13 ∷ Immediate Addi 14 0 1 ∷ Register registers.Sub 14 14 13
            ∷ Register registers.Mul 11 11 14 ∷ store_slot 11 to [])) }
    {
        self.load_right(from)?;
        self.check_least(raise_to, place)?;
        self.take_magnitude()?;
        self.store_right(to)
    }

    /// An operator on two slots.
    pub(crate) fn arithmetic(
        &mut self,
        raise_to: u32,
        place: u32,
        operator: Operator,
        to: Slot,
        left: Slot,
        right: Slot,
    ) -> Result<(), AllocError>
        ensures { OnOk result (self.new ≡ self.old ++ checked raise_to place
            (load_slot 10 left (load_slot 11 right (operate_front operator ++ raising 1)))
            (operate_test operator).op (operate_test operator).left (operate_test operator).right
            (operate_back operator (store_slot 14 to []))) }
    {
        self.load_left(left)?;
        self.load_right(right)?;
        match operator {
            Operator::Add => self.add(raise_to, place, to),
            Operator::Subtract => self.subtract(raise_to, place, to),
            Operator::Multiply => self.multiply(raise_to, place, to),
            Operator::Divide => self.divide(raise_to, place, to),
            Operator::Modulo => self.modulo(raise_to, place, to),
            Operator::Remainder => self.remainder(raise_to, place, to),
        }
    }
}
