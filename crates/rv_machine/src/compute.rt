//! What instructions compute of the values of their operands.

ghost use Rattle.std.specs.Prelude.{◌≡◌, ◌^◌, ◌<◌, ◌*ℤ◌};
ghost use Rattle.rv_semantics.specs.Arithmetic.{upper_word, is_taken, immediate_result, shift_result, register_result};
ghost use Rattle.rv_semantics.specs.Step.{upper_result};

use rv_isa::{BranchOp, ImmediateOp, RegisterOp, ShiftOp, UpperOp};

/// LUI and AUIPC, of the program counter and the immediate.
pub fn upper(op: UpperOp, pc: u32, value: u32) -> u32
    ensures { result ≡ upper_result op pc value }
{
    match op {
        UpperOp::Lui => value,
        UpperOp::Auipc => pc.wrapping_add(value),
    }
}

/// Whether a conditional branch is taken.
pub fn taken(op: BranchOp, a: u32, b: u32) -> bool
    ensures { result ≡ is_taken op a b }
{
    match op {
        BranchOp::Beq => a == b,
        BranchOp::Bne => a != b,
        BranchOp::Blt => a.cast_signed() < b.cast_signed(),
        BranchOp::Bge => a.cast_signed() >= b.cast_signed(),
        BranchOp::Bltu => a < b,
        BranchOp::Bgeu => a >= b,
    }
}

/// Register-immediate instructions, of a register and the immediate with its sign extended.
pub fn immediate(op: ImmediateOp, a: u32, b: u32) -> u32
    ensures { result ≡ immediate_result op a b }
{
    match op {
        ImmediateOp::Addi => a.wrapping_add(b),
        ImmediateOp::Slti => u32::from(a.cast_signed() < b.cast_signed()),
        ImmediateOp::Sltiu => u32::from(a < b),
        ImmediateOp::Xori => a ^ b,
        ImmediateOp::Ori => a | b,
        ImmediateOp::Andi => a & b,
    }
}

/// Shifts by fewer than 32 bits.
pub fn shift(op: ShiftOp, a: u32, by: u32) -> u32
    requires { by < 2 ^ 5 }
    ensures { result ≡ shift_result op a by }
{
    match op {
        ShiftOp::Slli => a << by,
        ShiftOp::Srli => a >> by,
        ShiftOp::Srai => (a.cast_signed() >> by).cast_unsigned(),
    }
}

/// Register-register instructions, the M extension too.
pub fn register(op: RegisterOp, a: u32, b: u32) -> u32
    ensures { result ≡ register_result op a b }
{
    match op {
        RegisterOp::Add => a.wrapping_add(b),
        RegisterOp::Sub => a.wrapping_sub(b),
        RegisterOp::Sll => shift(ShiftOp::Slli, a, b % 32),
        RegisterOp::Slt => u32::from(a.cast_signed() < b.cast_signed()),
        RegisterOp::Sltu => u32::from(a < b),
        RegisterOp::Xor => a ^ b,
        RegisterOp::Srl => shift(ShiftOp::Srli, a, b % 32),
        RegisterOp::Sra => shift(ShiftOp::Srai, a, b % 32),
        RegisterOp::Or => a | b,
        RegisterOp::And => a & b,
        RegisterOp::Mul => a.wrapping_mul(b),
        RegisterOp::Mulh => upper_of(product(a.cast_signed(), b.cast_signed())),
        RegisterOp::Mulhsu => upper_of(i64::from(a.cast_signed()) * i64::from(b)),
        RegisterOp::Mulhu => (u64::from(a) * u64::from(b) >> 32) as u32,
        RegisterOp::Div if b == 0 => u32::MAX,
        RegisterOp::Div => a
            .cast_signed()
            .wrapping_div(b.cast_signed())
            .cast_unsigned(),
        RegisterOp::Divu if b == 0 => u32::MAX,
        RegisterOp::Divu => a / b,
        RegisterOp::Rem if b == 0 => a,
        RegisterOp::Rem => a
            .cast_signed()
            .wrapping_rem(b.cast_signed())
            .cast_unsigned(),
        RegisterOp::Remu if b == 0 => a,
        RegisterOp::Remu => a % b,
    }
}

/// The whole product of two signed words.
fn product(a: i32, b: i32) -> i64
    ensures { result ≡ a *ℤ b }
{
    i64::from(a) * i64::from(b)
}

/// The upper word of a product.
fn upper_of(product: i64) -> u32
    ensures { result ≡ upper_word product }
{
    (product.cast_unsigned() >> 32) as u32
}
