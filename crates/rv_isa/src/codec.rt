ghost use Rattle.std.specs.Prelude.{◌≡◌, ◌≢◌, ℕ, ◌^◌, ◌<◌, IfSome, IfNone};
ghost use Rattle.rv_isa.specs.declared.instr.Instr.{Instr};
ghost use Rattle.rv_isa.specs.Rows.{word, IsInstr};
ghost use Rattle.rv_isa.specs.Decoding.{instr_of};

use crate::instr::Instr;
use crate::ops::{BranchOp, ImmediateOp, LoadOp, RegisterOp, ShiftOp, StoreOp, UpperOp};
use crate::words::{b_form, i_form, j_form, r_form, s_form, u_form};
use crate::{opcode, words};

/// The words of the two instructions without operands.
const ECALL: u32 = 0x0000_0073;

const EBREAK: u32 = 0x0010_0073;

/// The word of an instruction, which reads back as that instruction.
#[tactic(auto, using(crate::proofs::Laws::again))]
pub fn encode(i: &Instr) -> u32
    ensures value { result ≡ word i.now }
    ensures again { instr_of result ≡ Some i.now }
{
    hold(i);
    word_of(i)
}

fn word_of(i: &Instr) -> u32
    ensures { result ≡ word i.now }
{
    match *i {
        Instr::Upper { op, rd, imm } => u_form(imm, rd, op.opcode()),
        Instr::Jal { rd, halves } => j_form(halves, rd, opcode::JAL),
        Instr::Jalr { rd, rs1, imm } => i_form(imm, rs1, 0, rd, opcode::JALR),
        Instr::Branch {
            op,
            rs1,
            rs2,
            halves,
        } => b_form(halves, rs2, rs1, op.funct3(), opcode::BRANCH),
        Instr::Load { op, rd, rs1, imm } => i_form(imm, rs1, op.funct3(), rd, opcode::LOAD),
        Instr::Store { op, rs1, rs2, imm } => s_form(imm, rs2, rs1, op.funct3(), opcode::STORE),
        Instr::Immediate { op, rd, rs1, imm } => i_form(imm, rs1, op.funct3(), rd, opcode::OP_IMM),
        Instr::Shift { op, rd, rs1, by } => {
            let (funct7, funct3) = op.functs();
            r_form(
                funct7,
                by.amount(),
                rs1,
                funct3,
                rd.number(),
                opcode::OP_IMM,
            )
        }
        Instr::Register { op, rd, rs1, rs2 } => {
            let (funct7, funct3) = op.functs();
            r_form(funct7, rs2.number(), rs1, funct3, rd.number(), opcode::OP)
        }
        Instr::Fence { rd, rs1, imm } => i_form(imm, rs1, 0, rd, opcode::MISC_MEM),
        Instr::Ecall => ECALL,
        Instr::Ebreak => EBREAK,
    }
}

/// The instruction that a word holds, if it holds one of the 48.
#[tactic(auto, using(crate::proofs::Laws::none_from))]
pub fn decode(bits: u32) -> Option<Instr>
    ensures value { result ≡ instr_of bits }
    ensures row { IfSome result (λ i. word i ≡ bits) }
    ensures valid { IfSome result IsInstr }
    ensures none { IfNone result ((i : Instr) → IsInstr i → word i ≢ bits) }
{
    instruction_of(bits)
}

fn instruction_of(bits: u32) -> Option<Instr>
    ensures value { result ≡ instr_of bits }
    ensures row { IfSome result (λ i. word i ≡ bits) }
    ensures valid { IfSome result IsInstr }
{
    let rd = words::rd(bits);
    let rs1 = words::rs1(bits);
    let rs2 = words::rs2(bits);
    let imm = words::i_imm(bits);
    let funct3 = words::funct3(bits);
    Some(match words::opcode(bits) {
        opcode::LUI => Instr::Upper {
            op: UpperOp::Lui,
            rd,
            imm: words::u_imm(bits),
        },
        opcode::AUIPC => Instr::Upper {
            op: UpperOp::Auipc,
            rd,
            imm: words::u_imm(bits),
        },
        opcode::JAL => Instr::Jal {
            rd,
            halves: words::j_halves(bits),
        },
        opcode::JALR if funct3 == 0 => Instr::Jalr { rd, rs1, imm },
        opcode::BRANCH => Instr::Branch {
            op: BranchOp::of(funct3)?,
            rs1,
            rs2,
            halves: words::b_halves(bits),
        },
        opcode::LOAD => Instr::Load {
            op: LoadOp::of(funct3)?,
            rd,
            rs1,
            imm,
        },
        opcode::STORE => Instr::Store {
            op: StoreOp::of(funct3)?,
            rs1,
            rs2,
            imm: words::s_imm(bits),
        },
        opcode::OP_IMM if funct3 == 1 || funct3 == 5 => {
            let op = ShiftOp::of(words::funct7(bits), funct3)?;
            let by = words::shift_amount(bits);
            Instr::Shift { op, rd, rs1, by }
        }
        opcode::OP_IMM => Instr::Immediate {
            op: ImmediateOp::of(funct3)?,
            rd,
            rs1,
            imm,
        },
        opcode::OP => {
            let op = RegisterOp::of(words::funct7(bits), funct3)?;
            Instr::Register { op, rd, rs1, rs2 }
        }
        opcode::MISC_MEM if funct3 == 0 => Instr::Fence { rd, rs1, imm },
        _ if bits == ECALL => Instr::Ecall,
        _ if bits == EBREAK => Instr::Ebreak,
        _ => return None,
    })
}

/// The operands of an instruction fit their fields. A contract sees operands as plain numbers, so a
/// caller learns this here.
pub fn hold(i: &Instr)
    ensures { IsInstr i.now }
{
    match *i {
        Instr::Upper { rd, imm, .. } => {
            let _ = (rd.number(), imm.bits());
        }
        Instr::Jal { rd, halves } => {
            let _ = (rd.number(), halves.bits());
        }
        Instr::Branch {
            rs1,
            rs2,
            halves,
            ..
        } => {
            let _ = (rs1.number(), rs2.number(), halves.bits());
        }
        Instr::Store { rs1, rs2, imm, .. } => {
            let _ = (rs1.number(), rs2.number(), imm.bits());
        }
        Instr::Shift { rd, rs1, by, .. } => {
            let _ = (rd.number(), rs1.number(), by.amount());
        }
        Instr::Register { rd, rs1, rs2, .. } => {
            let _ = (rd.number(), rs1.number(), rs2.number());
        }
        Instr::Jalr { rd, rs1, imm }
        | Instr::Load { rd, rs1, imm, .. }
        | Instr::Immediate { rd, rs1, imm, .. }
        | Instr::Fence { rd, rs1, imm } => {
            let _ = (rd.number(), rs1.number(), imm.bits());
        }
        Instr::Ecall | Instr::Ebreak => {}
    }
}

/// Each instruction is read back from its word, which has 32 bits.
#[tactic(auto, using(crate::proofs::Laws::again))]
pub fn read_again()
    ensures again { (i : Instr) → IsInstr i → instr_of (word i) ≡ Some i }
    ensures within { (i : Instr) → IsInstr i → word i < 2 ^ 32 }
{}

/// No two instructions have one word.
pub fn one_word()
    ensures { (i j : Instr) → IsInstr i → IsInstr j → word i ≡ word j → i ≡ j }
{}
