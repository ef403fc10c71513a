ghost use Rattle.std.specs.Prelude.{◌≡◌, ◌^◌, ◌<◌, IfSome};
ghost use Rattle.rv_isa.specs.Rows.{upper_opcode, branch_funct3, load_funct3, store_funct3, immediate_funct3, shift_functs, register_functs};
ghost use Rattle.rv_isa.specs.Decoding.{branch_op_of, load_op_of, store_op_of, immediate_op_of, shift_op_of, register_op_of};

use crate::opcode;

/// RV32I, integer register-immediate instructions: a constant in the upper 20 bits, alone or added
/// to the program counter.
#[derive(Clone, Copy, Debug, PartialEq, Eq)]
pub enum UpperOp {
    Lui,
    Auipc,
}

impl UpperOp {
    pub(crate) fn opcode(self) -> u32
        ensures value { result ≡ upper_opcode self }
        ensures within { result < 2 ^ 7 }
    {
        match self {
            UpperOp::Lui => opcode::LUI,
            UpperOp::Auipc => opcode::AUIPC,
        }
    }
}

/// RV32I, conditional branches, by how they compare two registers.
#[derive(Clone, Copy, Debug, PartialEq, Eq)]
pub enum BranchOp {
    Beq,
    Bne,
    Blt,
    Bge,
    Bltu,
    Bgeu,
}

impl BranchOp {
    pub(crate) fn funct3(self) -> u32
        ensures value { result ≡ branch_funct3 self }
        ensures within { result < 2 ^ 3 }
    {
        match self {
            BranchOp::Beq => 0,
            BranchOp::Bne => 1,
            BranchOp::Blt => 4,
            BranchOp::Bge => 5,
            BranchOp::Bltu => 6,
            BranchOp::Bgeu => 7,
        }
    }

    pub(crate) fn of(funct3: u32) -> Option<Self>
        ensures value { result ≡ branch_op_of funct3 }
        ensures row { IfSome result (λ op. branch_funct3 op ≡ funct3) }
    {
        match funct3 {
            0 => Some(BranchOp::Beq),
            1 => Some(BranchOp::Bne),
            4 => Some(BranchOp::Blt),
            5 => Some(BranchOp::Bge),
            6 => Some(BranchOp::Bltu),
            7 => Some(BranchOp::Bgeu),
            _ => None,
        }
    }
}

/// RV32I, loads: a byte, a half-word or a word, with its sign above or, with a final `u`, zeros.
#[derive(Clone, Copy, Debug, PartialEq, Eq)]
pub enum LoadOp {
    Lb,
    Lh,
    Lw,
    Lbu,
    Lhu,
}

impl LoadOp {
    pub(crate) fn funct3(self) -> u32
        ensures value { result ≡ load_funct3 self }
        ensures within { result < 2 ^ 3 }
    {
        match self {
            LoadOp::Lb => 0,
            LoadOp::Lh => 1,
            LoadOp::Lw => 2,
            LoadOp::Lbu => 4,
            LoadOp::Lhu => 5,
        }
    }

    pub(crate) fn of(funct3: u32) -> Option<Self>
        ensures value { result ≡ load_op_of funct3 }
        ensures row { IfSome result (λ op. load_funct3 op ≡ funct3) }
    {
        match funct3 {
            0 => Some(LoadOp::Lb),
            1 => Some(LoadOp::Lh),
            2 => Some(LoadOp::Lw),
            4 => Some(LoadOp::Lbu),
            5 => Some(LoadOp::Lhu),
            _ => None,
        }
    }
}

/// RV32I, stores: a byte, a half-word or a word.
#[derive(Clone, Copy, Debug, PartialEq, Eq)]
pub enum StoreOp {
    Sb,
    Sh,
    Sw,
}

impl StoreOp {
    pub(crate) fn funct3(self) -> u32
        ensures value { result ≡ store_funct3 self }
        ensures within { result < 2 ^ 3 }
    {
        match self {
            StoreOp::Sb => 0,
            StoreOp::Sh => 1,
            StoreOp::Sw => 2,
        }
    }

    pub(crate) fn of(funct3: u32) -> Option<Self>
        ensures value { result ≡ store_op_of funct3 }
        ensures row { IfSome result (λ op. store_funct3 op ≡ funct3) }
    {
        match funct3 {
            0 => Some(StoreOp::Sb),
            1 => Some(StoreOp::Sh),
            2 => Some(StoreOp::Sw),
            _ => None,
        }
    }
}

/// RV32I, integer register-immediate instructions.
#[derive(Clone, Copy, Debug, PartialEq, Eq)]
pub enum ImmediateOp {
    Addi,
    Slti,
    Sltiu,
    Xori,
    Ori,
    Andi,
}

impl ImmediateOp {
    pub(crate) fn funct3(self) -> u32
        ensures value { result ≡ immediate_funct3 self }
        ensures within { result < 2 ^ 3 }
    {
        match self {
            ImmediateOp::Addi => 0,
            ImmediateOp::Slti => 2,
            ImmediateOp::Sltiu => 3,
            ImmediateOp::Xori => 4,
            ImmediateOp::Ori => 6,
            ImmediateOp::Andi => 7,
        }
    }

    pub(crate) fn of(funct3: u32) -> Option<Self>
        ensures value { result ≡ immediate_op_of funct3 }
        ensures row { IfSome result (λ op. immediate_funct3 op ≡ funct3) }
    {
        match funct3 {
            0 => Some(ImmediateOp::Addi),
            2 => Some(ImmediateOp::Slti),
            3 => Some(ImmediateOp::Sltiu),
            4 => Some(ImmediateOp::Xori),
            6 => Some(ImmediateOp::Ori),
            7 => Some(ImmediateOp::Andi),
            _ => None,
        }
    }
}

/// RV32I, integer register-immediate instructions: shifts by a constant.
#[derive(Clone, Copy, Debug, PartialEq, Eq)]
pub enum ShiftOp {
    Slli,
    Srli,
    Srai,
}

impl ShiftOp {
    /// funct7 and funct3.
    pub(crate) fn functs(self) -> (u32, u32)
        ensures value { result ≡ shift_functs self }
        ensures funct7 { result.0 < 2 ^ 7 }
        ensures funct3 { result.1 < 2 ^ 3 }
    {
        match self {
            ShiftOp::Slli => (0x00, 1),
            ShiftOp::Srli => (0x00, 5),
            ShiftOp::Srai => (0x20, 5),
        }
    }

    pub(crate) fn of(funct7: u32, funct3: u32) -> Option<Self>
        ensures value { result ≡ shift_op_of funct7 funct3 }
        ensures row { IfSome result (λ op. shift_functs op ≡ (funct7, funct3)) }
    {
        match (funct7, funct3) {
            (0x00, 1) => Some(ShiftOp::Slli),
            (0x00, 5) => Some(ShiftOp::Srli),
            (0x20, 5) => Some(ShiftOp::Srai),
            _ => None,
        }
    }
}

/// RV32I, integer register-register operations, and from `Mul` on the M extension, multiplication
/// and division operations.
#[derive(Clone, Copy, Debug, PartialEq, Eq)]
pub enum RegisterOp {
    Add,
    Sub,
    Sll,
    Slt,
    Sltu,
    Xor,
    Srl,
    Sra,
    Or,
    And,
    Mul,
    Mulh,
    Mulhsu,
    Mulhu,
    Div,
    Divu,
    Rem,
    Remu,
}

impl RegisterOp {
    /// funct7 and funct3.
    pub(crate) fn functs(self) -> (u32, u32)
        ensures value { result ≡ register_functs self }
        ensures funct7 { result.0 < 2 ^ 7 }
        ensures funct3 { result.1 < 2 ^ 3 }
    {
        match self {
            RegisterOp::Add => (0x00, 0),
            RegisterOp::Sub => (0x20, 0),
            RegisterOp::Sll => (0x00, 1),
            RegisterOp::Slt => (0x00, 2),
            RegisterOp::Sltu => (0x00, 3),
            RegisterOp::Xor => (0x00, 4),
            RegisterOp::Srl => (0x00, 5),
            RegisterOp::Sra => (0x20, 5),
            RegisterOp::Or => (0x00, 6),
            RegisterOp::And => (0x00, 7),
            RegisterOp::Mul => (0x01, 0),
            RegisterOp::Mulh => (0x01, 1),
            RegisterOp::Mulhsu => (0x01, 2),
            RegisterOp::Mulhu => (0x01, 3),
            RegisterOp::Div => (0x01, 4),
            RegisterOp::Divu => (0x01, 5),
            RegisterOp::Rem => (0x01, 6),
            RegisterOp::Remu => (0x01, 7),
        }
    }

    pub(crate) fn of(funct7: u32, funct3: u32) -> Option<Self>
        ensures value { result ≡ register_op_of funct7 funct3 }
        ensures row { IfSome result (λ op. register_functs op ≡ (funct7, funct3)) }
    {
        match (funct7, funct3) {
            (0x00, 0) => Some(RegisterOp::Add),
            (0x20, 0) => Some(RegisterOp::Sub),
            (0x00, 1) => Some(RegisterOp::Sll),
            (0x00, 2) => Some(RegisterOp::Slt),
            (0x00, 3) => Some(RegisterOp::Sltu),
            (0x00, 4) => Some(RegisterOp::Xor),
            (0x00, 5) => Some(RegisterOp::Srl),
            (0x20, 5) => Some(RegisterOp::Sra),
            (0x00, 6) => Some(RegisterOp::Or),
            (0x00, 7) => Some(RegisterOp::And),
            (0x01, 0) => Some(RegisterOp::Mul),
            (0x01, 1) => Some(RegisterOp::Mulh),
            (0x01, 2) => Some(RegisterOp::Mulhsu),
            (0x01, 3) => Some(RegisterOp::Mulhu),
            (0x01, 4) => Some(RegisterOp::Div),
            (0x01, 5) => Some(RegisterOp::Divu),
            (0x01, 6) => Some(RegisterOp::Rem),
            (0x01, 7) => Some(RegisterOp::Remu),
            _ => None,
        }
    }
}
