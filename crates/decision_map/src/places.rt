//! Where the words of text stand.

ghost use Rattle.std.specs.Prelude.{◌≡◌};
ghost use Rattle.decision_map.specs.Kinds.{place_of, kind_in};

use crate::kind::WordKind;
use object_format::TEXT_START;

/// The place at which the word of an address stands, where text is long enough. At an address before
/// text, or between two words, none stands.
pub(crate) fn place_of(pc: u32) -> Option<usize>
    ensures { result ≡ place_of pc }
{
    if pc >= TEXT_START && pc % 4 == 0 {
        Some(((pc - TEXT_START) / 4) as usize)
    } else {
        None
    }
}

/// The kind of the word at an address, of text whose words are of these kinds. Where no word stands,
/// no block runs through.
pub(crate) fn kind_in(kinds: &[WordKind], pc: u32) -> WordKind
    ensures { result ≡ kind_in kinds.now pc }
{
    match place_of(pc) {
        Some(place) => kinds.get(place).copied().unwrap_or(WordKind::Stop),
        None => WordKind::Stop,
    }
}
