//! Bytes of words.

ghost use Rattle.std.specs.Prelude.{◌≡◌, ◌^◌, ◌<◌, ◌≤◌};
ghost use Rattle.rv_semantics.specs.Bytes.{load_size, store_size, byte_in, half_in, with_byte, loaded, stored};
ghost use Rattle.rv_isa.specs.Immediates.{sign_extended};

use rv_isa::{LoadOp, StoreOp};

/// How many bytes a load reads.
pub fn size_of_load(op: LoadOp) -> u32
    ensures value { result ≡ load_size op }
    ensures within { result ≤ 4 }
    ensures some { 0 < result }
{
    match op {
        LoadOp::Lb | LoadOp::Lbu => 1,
        LoadOp::Lh | LoadOp::Lhu => 2,
        LoadOp::Lw => 4,
    }
}

/// How many bytes a store writes.
pub fn size_of_store(op: StoreOp) -> u32
    ensures value { result ≡ store_size op }
    ensures within { result ≤ 4 }
    ensures some { 0 < result }
{
    match op {
        StoreOp::Sb => 1,
        StoreOp::Sh => 2,
        StoreOp::Sw => 4,
    }
}

/// What a load gives from an address in a word.
pub fn load_from(op: LoadOp, word: u32, address: u32) -> u32
    requires { address < 2 ^ 25 }
    ensures { result ≡ loaded op word address }
{
    match op {
        LoadOp::Lb => sign_extended_byte(byte_of(word, address)),
        LoadOp::Lh => sign_extended_half(half_of(word, address)),
        LoadOp::Lw => word,
        LoadOp::Lbu => byte_of(word, address),
        LoadOp::Lhu => half_of(word, address),
    }
}

/// The word that a store of a value at an address leaves in place of a word.
pub fn store_into(op: StoreOp, word: u32, address: u32, value: u32) -> u32
    requires { address < 2 ^ 25 }
    ensures { result ≡ stored op word address value }
{
    match op {
        StoreOp::Sb => put_byte(word, address, (value % 256) as u8),
        StoreOp::Sh => {
            let lower = put_byte(word, address, (value % 256) as u8);
            put_byte(lower, address + 1, (value / 256 % 256) as u8)
        }
        StoreOp::Sw => value,
    }
}

fn byte_of(word: u32, address: u32) -> u32
    ensures value { result ≡ byte_in word address }
    ensures within { result < 2 ^ 8 }
{
    u32::from(word.to_le_bytes()[(address % 4) as usize])
}

fn half_of(word: u32, address: u32) -> u32
    requires { address < 2 ^ 25 }
    ensures value { result ≡ half_in word address }
    ensures within { result < 2 ^ 16 }
{
    byte_of(word, address) + byte_of(word, address + 1) * 256
}

fn sign_extended_byte(byte: u32) -> u32
    requires { byte < 2 ^ 8 }
    ensures { result ≡ sign_extended 8 byte }
{
    if byte < 0x80 {
        byte
    } else {
        byte + 0xffff_ff00
    }
}

fn sign_extended_half(half: u32) -> u32
    requires { half < 2 ^ 16 }
    ensures { result ≡ sign_extended 16 half }
{
    if half < 0x8000 {
        half
    } else {
        half + 0xffff_0000
    }
}

fn put_byte(word: u32, address: u32, byte: u8) -> u32
    ensures { result ≡ with_byte word address byte }
{
    let mut bytes = word.to_le_bytes();
    bytes[(address % 4) as usize] = byte;
    u32::from_le_bytes(bytes)
}
