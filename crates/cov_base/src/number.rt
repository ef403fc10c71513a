//! Numbers in files: four bytes, the least significant first.

ghost use Rattle.std.specs.Prelude.{◌≡◌, ◌++◌, length, OnOk, OnErr};
ghost use Rattle.std.specs.Int.{w32, to_le_bytes};
ghost use Rattle.cov_base.specs.Number.{number_at};

use std::alloc::AllocError;

/// The number that stands in the four bytes from place `at` on, where there are four.
pub fn u32_at(bytes: &[u8], at: usize) -> Option<u32>
    ensures { result ≡ number_at bytes.now at }
{
    match bytes.get(at..)? {
        [a, b, c, d, ..] => Some(u32::from_le_bytes([*a, *b, *c, *d])),
        _ => None,
    }
}

/// Appends the four bytes of `value`. Where memory is refused, `into` is as before.
pub fn put_u32(into: &mut Vec<u8>, value: u32) -> Result<(), AllocError>
    ensures appends { OnOk result (into.new.items ≡ into.old.items ++ to_le_bytes w32 value) }
    ensures reads_back { OnOk result (number_at into.new.items (length into.old.items) ≡ Some value) }
    ensures refused { OnErr result (into.new.items ≡ into.old.items) }
{
    into.extend_from_slice(&value.to_le_bytes())
}
