//! Single bits of words, by which sets of conditions are kept.

ghost use Rattle.std.specs.Prelude.{◌≡◌, ◌<◌, ℕ, nat_eq, if◌then◌else◌};
ghost use Rattle.cov_base.specs.Marks.{bit};

/// Whether a word has a bit.
pub(crate) fn has(word: u32, place: u8) -> bool
    requires { place < 32 }
    ensures { result ≡ bit word place }
{
    (word >> place) & 1 == 1
}

/// The word with one bit made to be this.
pub(crate) fn with(word: u32, place: u8, value: bool) -> u32
    requires { place < 32 }
    ensures { (c : ℕ) → bit result c ≡ (if nat_eq c place then value else bit word c) }
{
    if value {
        word | 1 << place
    } else {
        word & !(1 << place)
    }
}
