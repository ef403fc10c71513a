//! Instructions by their operands, registers by their use, and parts of constants.

ghost use Rattle.std.specs.Prelude.{◌≡◌, ◌+◌, ◌-◌, ◌*◌, ◌^◌, ◌<◌, []};
ghost use Rattle.rv_isa.specs.declared.ops.UpperOp.TheVariants.{Lui};
ghost use Rattle.rv_isa.specs.declared.ops.ImmediateOp.TheVariants.{Addi};
ghost use Rattle.rv_isa.specs.declared.ops.LoadOp.TheVariants.{Lw};
ghost use Rattle.rv_isa.specs.declared.ops.StoreOp.TheVariants.{Sw};
ghost use Rattle.rv_isa.specs.declared.instr.Instr.TheVariants.{Upper, Load, Store, Immediate, Register, Shift, Jalr};
ghost use Rattle.kernel_code.specs.Words.{high, low, slot_distance, load_slot, store_slot, load_constant};

use rv_isa::{
    Imm12, Imm20, ImmediateOp, Instr, LoadOp, Reg, RegisterOp, ShiftAmount, ShiftOp, StoreOp,
    UpperOp,
};

/// `x5`, which gets the upper part of a far address.
pub fn far() -> Reg
    ensures { result ≡ 5 }
{
    Reg::new(5)
}

/// `x12`, the number of an exception.
pub fn exception() -> Reg
    ensures { result ≡ 12 }
{
    Reg::new(12)
}

/// `x13`, a work register.
pub fn a3() -> Reg
    ensures { result ≡ 13 }
{
    Reg::new(13)
}

/// `x14`, a work register.
pub(crate) fn a4() -> Reg
    ensures { result ≡ 14 }
{
    Reg::new(14)
}

/// The upper part of a constant.
pub fn high(constant: u64) -> u32
    requires { constant < 2 ^ 36 }
    ensures value { result ≡ high constant }
    ensures within { result < 2 ^ 20 }
{
    ((constant + 0x800) / 0x1000 % 0x10_0000) as u32
}

/// The lower part of a constant.
pub fn low(constant: u64) -> u16
    ensures value { result ≡ low constant }
    ensures within { result < 2 ^ 12 }
{
    (constant % 0x1000) as u16
}

/// How far a slot lies from the end of its frame, as a word.
fn slot_distance(slot: u32) -> u64
    ensures value { result ≡ slot_distance slot }
    ensures within { result < 2 ^ 32 }
{
    0x1_0000_0000_u64.saturating_sub(4 * (u64::from(slot) + 1))
}

/// LUI.
pub fn lui(rd: Reg, upper: u32) -> Instr
    requires { upper < 2 ^ 20 }
    ensures { result ≡ Upper Lui rd upper }
{
    Instr::Upper {
        op: UpperOp::Lui,
        rd,
        imm: Imm20::new(upper),
    }
}

/// An operation on a register and an immediate.
pub fn immediate(op: ImmediateOp, rd: Reg, rs1: Reg, bits: u16) -> Instr
    requires { bits < 2 ^ 12 }
    ensures { result ≡ Immediate op rd rs1 bits }
{
    Instr::Immediate {
        op,
        rd,
        rs1,
        imm: Imm12::new(bits),
    }
}

/// ADDI.
pub fn addi(rd: Reg, rs1: Reg, bits: u16) -> Instr
    requires { bits < 2 ^ 12 }
    ensures { result ≡ Immediate Addi rd rs1 bits }
{
    immediate(ImmediateOp::Addi, rd, rs1, bits)
}

/// An operation on two registers.
pub fn register(op: RegisterOp, rd: Reg, rs1: Reg, rs2: Reg) -> Instr
    ensures { result ≡ Register op rd rs1 rs2 }
{
    Instr::Register { op, rd, rs1, rs2 }
}

/// A shift by a constant.
pub(crate) fn shift(op: ShiftOp, rd: Reg, rs1: Reg, amount: u8) -> Instr
    requires { amount < 2 ^ 5 }
    ensures { result ≡ Shift op rd rs1 amount }
{
    Instr::Shift {
        op,
        rd,
        rs1,
        by: ShiftAmount::new(amount),
    }
}

/// LW.
pub fn load(rd: Reg, base: Reg, bits: u16) -> Instr
    requires { bits < 2 ^ 12 }
    ensures { result ≡ Load Lw rd base bits }
{
    Instr::Load {
        op: LoadOp::Lw,
        rd,
        rs1: base,
        imm: Imm12::new(bits),
    }
}

/// SW.
pub fn store(base: Reg, from: Reg, bits: u16) -> Instr
    requires { bits < 2 ^ 12 }
    ensures { result ≡ Store Sw base from bits }
{
    Instr::Store {
        op: StoreOp::Sw,
        rs1: base,
        rs2: from,
        imm: Imm12::new(bits),
    }
}

/// A return to the address in `x1`.
pub fn back() -> Instr
    ensures { result ≡ Jalr 0 1 0 }
{
    Instr::Jalr {
        rd: Reg::zero(),
        rs1: Reg::ra(),
        imm: Imm12::new(0),
    }
}

/// A register gets what a slot has.
pub(crate) fn load_slot(rd: Reg, slot: u32) -> [Instr; 3]
    ensures { result ≡ load_slot rd slot [] }
{
    let distance = slot_distance(slot);
    [
        lui(far(), high(distance)),
        register(RegisterOp::Add, far(), far(), Reg::fp()),
        load(rd, far(), low(distance)),
    ]
}

/// A slot gets what a register has.
pub(crate) fn store_slot(from: Reg, slot: u32) -> [Instr; 3]
    ensures { result ≡ store_slot from slot [] }
{
    let distance = slot_distance(slot);
    [
        lui(far(), high(distance)),
        register(RegisterOp::Add, far(), far(), Reg::fp()),
        store(far(), from, low(distance)),
    ]
}

/// A register gets a constant.
pub(crate) fn load_constant(rd: Reg, constant: u64) -> [Instr; 2]
    requires { constant < 2 ^ 36 }
    ensures { result ≡ load_constant rd constant [] }
{
    [lui(rd, high(constant)), addi(rd, rd, low(constant))]
}
