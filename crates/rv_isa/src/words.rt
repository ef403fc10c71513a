//! The fields of a word, by the forms of the manual's section 'Base Instruction Formats'.

ghost use Rattle.std.specs.Prelude.{◌≡◌, ◌^◌, ◌<◌};
ghost use Rattle.rv_isa.specs.Words.{r_word, i_word, s_word, b_word, u_word, j_word, opcode_of, rd_of, funct3_of, rs1_of, rs2_of, funct7_of, i_imm_of, s_imm_of, b_halves_of, u_imm_of, j_halves_of};

use crate::operands::{Imm12, Imm20, Reg, ShiftAmount};

/// Form R: six fields side by side, from bit 31 down.
pub fn r_form(funct7: u32, rs2: u8, rs1: Reg, funct3: u32, rd: u8, opcode: u32) -> u32
    requires funct7 { funct7 < 2 ^ 7 }
    requires rs2 { rs2 < 2 ^ 5 }
    requires funct3 { funct3 < 2 ^ 3 }
    requires rd { rd < 2 ^ 5 }
    requires opcode { opcode < 2 ^ 7 }
    ensures { result ≡ r_word funct7 rs2 rs1 funct3 rd opcode }
{
    let sources = (funct7 << 5 | u32::from(rs2)) << 5 | u32::from(rs1.number());
    ((sources << 3 | funct3) << 5 | u32::from(rd)) << 7 | opcode
}

/// Form I: an immediate above one source.
pub fn i_form(imm: Imm12, rs1: Reg, funct3: u32, rd: Reg, opcode: u32) -> u32
    requires funct3 { funct3 < 2 ^ 3 }
    requires opcode { opcode < 2 ^ 7 }
    ensures { result ≡ i_word imm rs1 funct3 rd opcode }
{
    let source = u32::from(imm.bits()) << 5 | u32::from(rs1.number());
    ((source << 3 | funct3) << 5 | u32::from(rd.number())) << 7 | opcode
}

/// Form S: an immediate in two parts, round two sources.
pub fn s_form(imm: Imm12, rs2: Reg, rs1: Reg, funct3: u32, opcode: u32) -> u32
    requires funct3 { funct3 < 2 ^ 3 }
    requires opcode { opcode < 2 ^ 7 }
    ensures { result ≡ s_word imm rs2 rs1 funct3 opcode }
{
    let imm = imm.bits();
    let low = (imm & 0x1f) as u8;
    r_form(u32::from(imm >> 5), rs2.number(), rs1, funct3, low, opcode)
}

/// Form B: as form S, with bit 11 of the offset at the word's bit 7.
pub fn b_form(halves: Imm12, rs2: Reg, rs1: Reg, funct3: u32, opcode: u32) -> u32
    requires funct3 { funct3 < 2 ^ 3 }
    requires opcode { opcode < 2 ^ 7 }
    ensures { result ≡ b_word halves rs2 rs1 funct3 opcode }
{
    let halves = halves.bits();
    let high = halves >> 11 << 6 | halves >> 4 & 0x3f;
    let low = ((halves & 0xf) << 1 | halves >> 10 & 1) as u8;
    r_form(u32::from(high), rs2.number(), rs1, funct3, low, opcode)
}

/// Form U: an immediate above the destination.
pub fn u_form(imm: Imm20, rd: Reg, opcode: u32) -> u32
    requires { opcode < 2 ^ 7 }
    ensures { result ≡ u_word imm rd opcode }
{
    (imm.bits() << 5 | u32::from(rd.number())) << 7 | opcode
}

/// Form J: an offset whose bits stand in another order, above the destination.
pub fn j_form(halves: Imm20, rd: Reg, opcode: u32) -> u32
    requires { opcode < 2 ^ 7 }
    ensures { result ≡ j_word halves rd opcode }
{
    let halves = halves.bits();
    let sign_and_low = halves >> 19 << 10 | halves & 0x3ff;
    let offset = (sign_and_low << 1 | halves >> 10 & 1) << 8 | halves >> 11 & 0xff;
    (offset << 5 | u32::from(rd.number())) << 7 | opcode
}

pub fn opcode(bits: u32) -> u32
    ensures { result ≡ opcode_of bits }
{
    bits & 0x7f
}

pub fn funct3(bits: u32) -> u32
    ensures { result ≡ funct3_of bits }
{
    bits >> 12 & 7
}

pub fn funct7(bits: u32) -> u32
    ensures { result ≡ funct7_of bits }
{
    bits >> 25
}

pub fn rd(bits: u32) -> Reg
    ensures { result ≡ rd_of bits }
{
    Reg::new((bits >> 7 & 0x1f) as u8)
}

pub fn rs1(bits: u32) -> Reg
    ensures { result ≡ rs1_of bits }
{
    Reg::new((bits >> 15 & 0x1f) as u8)
}

pub fn rs2(bits: u32) -> Reg
    ensures { result ≡ rs2_of bits }
{
    Reg::new((bits >> 20 & 0x1f) as u8)
}

/// The amount of a shift stands where form R has its second source.
pub fn shift_amount(bits: u32) -> ShiftAmount
    ensures { result ≡ rs2_of bits }
{
    ShiftAmount::new((bits >> 20 & 0x1f) as u8)
}

pub fn i_imm(bits: u32) -> Imm12
    ensures { result ≡ i_imm_of bits }
{
    Imm12::new((bits >> 20) as u16)
}

pub fn s_imm(bits: u32) -> Imm12
    ensures { result ≡ s_imm_of bits }
{
    Imm12::new((bits >> 25 << 5 | bits >> 7 & 0x1f) as u16)
}

pub fn b_halves(bits: u32) -> Imm12
    ensures { result ≡ b_halves_of bits }
{
    let high = bits >> 31 << 1 | bits >> 7 & 1;
    Imm12::new(((high << 6 | bits >> 25 & 0x3f) << 4 | bits >> 8 & 0xf) as u16)
}

pub fn u_imm(bits: u32) -> Imm20
    ensures { result ≡ u_imm_of bits }
{
    Imm20::new(bits >> 12)
}

pub fn j_halves(bits: u32) -> Imm20
    ensures { result ≡ j_halves_of bits }
{
    let high = bits >> 31 << 8 | bits >> 12 & 0xff;
    Imm20::new((high << 1 | bits >> 20 & 1) << 10 | bits >> 21 & 0x3ff)
}
