//! `word HEX`: the instruction that a word holds, and the word that holds that instruction.

use crate::reply::Reply;
use crate::words::address;
use rv_isa::{Instr, Reg, decode, encode};

/// Puts the name of an instruction.
fn put_name(out: &mut Reply, i: Instr) {
    match i {
        Instr::Upper { op, .. } => out.put(format_args!("{op:?}")),
        Instr::Jal { .. } => out.put("Jal"),
        Instr::Jalr { .. } => out.put("Jalr"),
        Instr::Branch { op, .. } => out.put(format_args!("{op:?}")),
        Instr::Load { op, .. } => out.put(format_args!("{op:?}")),
        Instr::Store { op, .. } => out.put(format_args!("{op:?}")),
        Instr::Immediate { op, .. } => out.put(format_args!("{op:?}")),
        Instr::Shift { op, .. } => out.put(format_args!("{op:?}")),
        Instr::Register { op, .. } => out.put(format_args!("{op:?}")),
        Instr::Fence { .. } => out.put("Fence"),
        Instr::Ecall => out.put("Ecall"),
        Instr::Ebreak => out.put("Ebreak"),
    }
}

/// The registers of an instruction, in the order of its fields.
fn registers(i: Instr) -> [Option<Reg>; 3] {
    match i {
        Instr::Upper { rd, .. } | Instr::Jal { rd, .. } => [Some(rd), None, None],
        Instr::Branch { rs1, rs2, .. } | Instr::Store { rs1, rs2, .. } => {
            [Some(rs1), Some(rs2), None]
        }
        Instr::Jalr { rd, rs1, .. }
        | Instr::Load { rd, rs1, .. }
        | Instr::Immediate { rd, rs1, .. }
        | Instr::Shift { rd, rs1, .. }
        | Instr::Fence { rd, rs1, .. } => [Some(rd), Some(rs1), None],
        Instr::Register { rd, rs1, rs2, .. } => [Some(rd), Some(rs1), Some(rs2)],
        Instr::Ecall | Instr::Ebreak => [None, None, None],
    }
}

/// Puts the numbers of registers.
fn put_registers(out: &mut Reply, registers: &[Option<Reg>]) {
    for register in registers {
        if let Some(register) = register {
            out.put(format_args!(" {}", register.number()));
        }
    }
}

/// Puts the immediate of an instruction: the amount of a shift, and else its raw bits.
fn put_immediate(out: &mut Reply, i: Instr) {
    match i {
        Instr::Upper { imm, .. } | Instr::Jal { halves: imm, .. } => {
            out.put(format_args!(" {:#x}", imm.bits()))
        }
        Instr::Branch { halves: imm, .. }
        | Instr::Jalr { imm, .. }
        | Instr::Load { imm, .. }
        | Instr::Store { imm, .. }
        | Instr::Immediate { imm, .. }
        | Instr::Fence { imm, .. } => out.put(format_args!(" {:#x}", imm.bits())),
        Instr::Shift { by, .. } => out.put(format_args!(" {}", by.amount())),
        Instr::Register { .. } | Instr::Ecall | Instr::Ebreak => {}
    }
}

/// Puts an instruction: its name, its registers, its immediate and its word.
fn put_instruction(out: &mut Reply, i: Instr) {
    put_name(out, i);
    put_registers(out, &registers(i));
    put_immediate(out, i);
    out.put(format_args!(" {:08x}\n", encode(&i)));
}

/// What the layer of instructions says of a word.
pub(crate) fn word(out: &mut Reply, digits: &str) {
    match decode(address(out, digits)) {
        Some(i) => put_instruction(out, i),
        None => out.put("none\n"),
    }
}
