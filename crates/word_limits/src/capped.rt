//! Numbers of words that are counted up to one past the largest limit.

ghost use Rattle.std.specs.Prelude.{◌≡◌, ◌+◌, ◌*◌};
ghost use Rattle.word_limits.specs.Capped as cap;
ghost use Rattle.word_limits.specs.Capped.{counted_on};

/// One word past the largest limit.
const WORD_CAP: u32 = 262_145;

/// A number of words, counted up to the cap.
fn capped(words: u64) -> u32
    ensures { result ≡ cap.capped words }
{
    if u64::from(WORD_CAP) < words {
        return WORD_CAP;
    }
    words as u32
}

/// So many components of one size.
pub(crate) fn product(count: u64, words: u32) -> u32
    ensures { result ≡ cap.capped (count * words) }
{
    match count.checked_mul(u64::from(words)) {
        Some(all) => capped(all),
        None => WORD_CAP,
    }
}

/// Two numbers of words together.
pub(crate) fn sum(words: u32, more: u32) -> u32
    ensures { result ≡ cap.capped (words + more) }
{
    capped(u64::from(words) + u64::from(more))
}

/// Two numbers of words together, where they are no more than this.
pub(crate) fn sum_within(most: u32, words: u32, more: u32) -> Option<u32>
    ensures { result ≡ counted_on most words more }
{
    let all = u64::from(words) + u64::from(more);
    if u64::from(most) < all {
        return None;
    }
    Some(all as u32)
}
