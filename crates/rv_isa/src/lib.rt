//! The RISC-V instructions of RV32I and of its M extension, and the 32-bit words that hold them.
//!
//! An `Instr` holds an operation and its operands, as raw bits that fit their fields. `encode`
//! gives its word, and `decode` reads a word back, or finds that it holds none of the 48
//! instructions. In a contract `word i` is the word of the instruction `i`, laid out as the RISC-V
//! unprivileged manual draws it, and `instr_of` reads a word field by field.
//!
//! The layers above rest on the contract of `decode`: it gives `instr_of bits`, which is `Some i`
//! exactly where `bits` is `word i` for operands that fit.
#![tactic(auto)]

pub use codec::{decode, encode, hold, one_word, read_again};
pub use instr::Instr;
pub use operands::{Imm12, Imm20, Reg, ShiftAmount};
pub use ops::{BranchOp, ImmediateOp, LoadOp, RegisterOp, ShiftOp, StoreOp, UpperOp};

mod codec;
mod instr;
mod opcode;
mod operands;
mod ops;
mod words;
