use crate::operands::{Imm12, Imm20, Reg, ShiftAmount};
use crate::ops::{BranchOp, ImmediateOp, LoadOp, RegisterOp, ShiftOp, StoreOp, UpperOp};

/// An instruction of RV32I or of the M extension.
#[derive(Clone, Copy)]
pub enum Instr {
    /// RV32I, integer register-immediate instructions: a constant in the upper 20 bits.
    Upper {
        op: UpperOp,
        rd: Reg,
        imm: Imm20,
    },

    /// RV32I, unconditional jumps: to the sum of the program counter and an offset.
    Jal {
        rd: Reg,
        halves: Imm20,
    },

    /// RV32I, unconditional jumps: to the sum of a register and an immediate.
    Jalr {
        rd: Reg,
        rs1: Reg,
        imm: Imm12,
    },

    /// RV32I, conditional branches.
    Branch {
        op: BranchOp,
        rs1: Reg,
        rs2: Reg,
        halves: Imm12,
    },

    /// RV32I, loads.
    Load {
        op: LoadOp,
        rd: Reg,
        rs1: Reg,
        imm: Imm12,
    },

    /// RV32I, stores.
    Store {
        op: StoreOp,
        rs1: Reg,
        rs2: Reg,
        imm: Imm12,
    },

    /// RV32I, integer register-immediate instructions.
    Immediate {
        op: ImmediateOp,
        rd: Reg,
        rs1: Reg,
        imm: Imm12,
    },

    /// RV32I, integer register-immediate instructions: shifts by a constant.
    Shift {
        op: ShiftOp,
        rd: Reg,
        rs1: Reg,
        by: ShiftAmount,
    },

    /// RV32I, integer register-register operations, and all of the M extension.
    Register {
        op: RegisterOp,
        rd: Reg,
        rs1: Reg,
        rs2: Reg,
    },

    /// RV32I, memory ordering. The other bits are kept, and mean nothing here.
    Fence {
        rd: Reg,
        rs1: Reg,
        imm: Imm12,
    },

    /// RV32I, environment call.
    Ecall,

    /// RV32I, breakpoint.
    Ebreak,
}
