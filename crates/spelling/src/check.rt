//! Checks that go through a list from its front.

ghost use Rattle.std.specs.Prelude.{◌≡◌, ◌<◌, Bool, Option, length, IfSome, None};
ghost use Rattle.spelling.specs.Checks.{first_failing};

use crate::entries::{Entries, Fixed};

/// A check of each entry of a list, which looks at the one before it too.
pub trait Check<T> {
    ghost passes: { Option T → T → Bool };

    /// Whether an entry passes, behind the entry before it, if there is one.
    fn passes(before: &Option<T>, entry: &T) -> bool
        ensures { result ≡ passes before.now entry.now };
}

/// The place of the first entry that a check refuses. It takes no memory.
pub fn first_failing_at<T: Fixed, C: Check<T>>(entries: &Entries<'_, T>) -> Option<u64>
    ensures first { result ≡ first_failing C.passes None 0 entries.now }
    ensures within { IfSome result (λ at. at < length entries.now) }
{
    let mut before = None;
    for at in 0..entries.len() {
        let entry = entries.get(at);
        if !C::passes(&before, &entry) {
            return Some(at);
        }
        before = Some(entry);
    }
    None
}
