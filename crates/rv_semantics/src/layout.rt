//! Where things lie in the machine's memory.

ghost use Rattle.std.specs.Prelude.{◌≡◌};
ghost use Rattle.rv_semantics.specs.Layout.{text_place};

/// How many bytes the memory has: addresses lie below.
pub const MEMORY_BYTES: u32 = 0x0200_0000;

/// The address at which a text begins.
pub const TEXT_START: u32 = 0x0001_0000;

/// The address at which the data of a linked program begin.
pub const DATA_START: u32 = 0x0100_0000;

/// The place in a text of the word at an address; none for an address before the text and for one
/// between words.
pub fn place_of(address: u32) -> Option<usize>
    ensures { result ≡ text_place address }
{
    if address < TEXT_START || address % 4 != 0 {
        None
    } else {
        Some(((address - TEXT_START) / 4) as usize)
    }
}
