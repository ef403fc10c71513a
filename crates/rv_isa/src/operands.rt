ghost use Rattle.std.specs.Prelude.{◌≡◌, ℕ, ◌+◌, ◌-◌, ◌*◌, ◌/◌, ◌%◌, ◌^◌, ◌<◌, ◌≤ℤ◌};
ghost use Rattle.std.specs.Int.{w32, cast_unsigned};
ghost use Rattle.rv_isa.specs.Immediates.{sign_12, branch_offset, jump_offset, upper_value};

use std::marker::Model;

/// One of the integer registers `x0` to `x31`.
#[derive(Clone, Copy, PartialEq, Eq)]
pub struct Reg {
    number: u8,
}

impl Model for Reg {
    ghost Value = { ℕ };

    ghost view = { λ r. r.number };

    ghost invariant = { λ r. r.number < 2 ^ 5 };

    ghost inverse = { λ n. record { number = n } };
}

impl Reg {
    pub fn new(number: u8) -> Self
        requires { number < 2 ^ 5 }
        ensures { result ≡ number }
    {
        Reg { number }
    }

    pub fn number(self) -> u8
        ensures value { result ≡ self }
        ensures within { result < 2 ^ 5 }
    {
        self.number
    }

    /// `x0`, which is always 0.
    pub fn zero() -> Self
        ensures { result ≡ 0 }
    {
        Reg { number: 0 }
    }

    /// `x1`, the return address.
    pub fn ra() -> Self
        ensures { result ≡ 1 }
    {
        Reg { number: 1 }
    }

    /// `x2`, the stack pointer.
    pub fn sp() -> Self
        ensures { result ≡ 2 }
    {
        Reg { number: 2 }
    }

    /// `x8`, the frame pointer.
    pub fn fp() -> Self
        ensures { result ≡ 8 }
    {
        Reg { number: 8 }
    }

    /// `x10`, the first argument and result.
    pub fn a0() -> Self
        ensures { result ≡ 10 }
    {
        Reg { number: 10 }
    }

    /// `x11`, the second argument and result.
    pub fn a1() -> Self
        ensures { result ≡ 11 }
    {
        Reg { number: 11 }
    }

    /// `x17`, the number of an environment call.
    pub fn a7() -> Self
        ensures { result ≡ 17 }
    {
        Reg { number: 17 }
    }
}

/// How far a shift by a constant goes, below 32.
#[derive(Clone, Copy)]
pub struct ShiftAmount {
    amount: u8,
}

impl Model for ShiftAmount {
    ghost Value = { ℕ };

    ghost view = { λ s. s.amount };

    ghost invariant = { λ s. s.amount < 2 ^ 5 };

    ghost inverse = { λ n. record { amount = n } };
}

impl ShiftAmount {
    pub fn new(amount: u8) -> Self
        requires { amount < 2 ^ 5 }
        ensures { result ≡ amount }
    {
        ShiftAmount { amount }
    }

    pub fn amount(self) -> u8
        ensures value { result ≡ self }
        ensures within { result < 2 ^ 5 }
    {
        self.amount
    }
}

/// The raw 12 bits of an immediate: a signed number in forms I and S, and a signed number of
/// half-words in form B.
#[derive(Clone, Copy)]
pub struct Imm12 {
    bits: u16,
}

impl Model for Imm12 {
    ghost Value = { ℕ };

    ghost view = { λ imm. imm.bits };

    ghost invariant = { λ imm. imm.bits < 2 ^ 12 };

    ghost inverse = { λ n. record { bits = n } };
}

impl Imm12 {
    /// The least value of a signed immediate.
    pub const MIN: i32 = -2048;

    /// The greatest value of a signed immediate.
    pub const MAX: i32 = 2047;

    pub fn new(bits: u16) -> Self
        requires { bits < 2 ^ 12 }
        ensures { result ≡ bits }
    {
        Imm12 { bits }
    }

    pub fn bits(self) -> u16
        ensures value { result ≡ self }
        ensures within { result < 2 ^ 12 }
    {
        self.bits
    }

    /// The immediate that stands for a signed number.
    pub fn signed(value: i32) -> Self
        requires low { Imm12.MIN ≤ℤ value }
        requires high { value ≤ℤ Imm12.MAX }
        ensures { sign_12 result ≡ cast_unsigned w32 value }
    {
        Imm12 {
            bits: (value.cast_unsigned() & 0xfff) as u16,
        }
    }

    /// The signed number, modulo 2 ^ 32.
    pub fn sign_extended(self) -> u32
        ensures { result ≡ sign_12 self }
    {
        let bits = u32::from(self.bits);
        if bits < 0x800 {
            bits
        } else {
            bits + 0xffff_f000
        }
    }

    /// How many bytes a branch with these half-words goes, modulo 2 ^ 32.
    pub fn branch_offset(self) -> u32
        ensures { result ≡ branch_offset self }
    {
        let bytes = u32::from(self.bits) * 2;
        if bytes < 0x1000 {
            bytes
        } else {
            bytes + 0xffff_e000
        }
    }
}

/// The raw 20 bits of an immediate: the upper bits of a value in form U, and a signed number of
/// half-words in form J.
#[derive(Clone, Copy)]
pub struct Imm20 {
    bits: u32,
}

impl Model for Imm20 {
    ghost Value = { ℕ };

    ghost view = { λ imm. imm.bits };

    ghost invariant = { λ imm. imm.bits < 2 ^ 20 };

    ghost inverse = { λ n. record { bits = n } };
}

impl Imm20 {
    pub fn new(bits: u32) -> Self
        requires { bits < 2 ^ 20 }
        ensures { result ≡ bits }
    {
        Imm20 { bits }
    }

    pub fn bits(self) -> u32
        ensures value { result ≡ self }
        ensures within { result < 2 ^ 20 }
    {
        self.bits
    }

    /// The value whose upper 20 bits these are.
    pub fn upper_value(self) -> u32
        ensures { result ≡ upper_value self }
    {
        self.bits << 12
    }

    /// How many bytes a jump with these half-words goes, modulo 2 ^ 32.
    pub fn jump_offset(self) -> u32
        ensures { result ≡ jump_offset self }
    {
        let bytes = self.bits * 2;
        if bytes < 0x10_0000 {
            bytes
        } else {
            bytes + 0xffe0_0000
        }
    }
}
