//! The words of an input that were not read yet.

ghost use Rattle.std.specs.Prelude.{◌≡◌, slice_get, drop};

/// The first word, if there is one, and the others.
pub fn next_word(words: &[i32]) -> (Option<i32>, &[i32])
    ensures first { result.0 ≡ slice_get words.now 0 }
    ensures rest { result.1.now ≡ drop 1 words.now }
{
    match words.split_first() {
        Some((word, rest)) => (Some(*word), rest),
        None => (None, words),
    }
}
