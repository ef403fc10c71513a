//! A check that is made as the entries of a list come, one by one.

ghost use Rattle.std.specs.Prelude.{◌≡◌, ◌<◌, ◌-◌, ◌^◌, List, [], ◌∷◌, ◌++◌, length, None};
ghost use Rattle.spelling.specs.Checks.{first_failing};
ghost use Rattle.trace_format.specs.Watch.{kept, Watched};

use spelling::Check;
use std::marker::PhantomData;

/// How far the check `C` has gone: the last entry, how many there were, and the place of the first
/// that failed.
#[derive(Drop)]
pub struct Watch<T: Drop, C: Check<T>> {
    before: Option<T>,
    at: u32,
    failing: Option<u32>,
    check: PhantomData<C>,
}

impl<T: Copy + Drop, C: Check<T>> Watch<T, C> {
    /// Before the first entry.
    pub fn new() -> Self
        ensures { Watched C.passes result.before result.at result.failing [] }
    {
        Watch {
            before: None,
            at: 0,
            failing: None,
            check: PhantomData,
        }
    }

    /// Takes the next entry, of fewer than 2^32.
    #[inline(always)]
    pub fn see(&mut self, entry: &T)
        ensures { (seen : List T) → Watched C.passes self.old.before self.old.at self.old.failing seen
            → length seen < 2 ^ 32 - 1
            → Watched C.passes self.new.before self.new.at self.new.failing (seen ++ entry.now ∷ []) }
    {
        let passes = C::passes(&self.before, entry);
        self.failing = first_of(self.failing, passes, self.at);
        self.before = Some(*entry);
        self.at = self.at.saturating_add(1);
    }

    /// The place of the first entry that failed.
    pub fn failing(&self) -> Option<u32>
        ensures { result ≡ self.now.failing }
    {
        self.failing
    }
}

/// The place that failed before, else this one where it doesn't pass.
fn first_of(failing: Option<u32>, passes: bool, at: u32) -> Option<u32>
    ensures { result ≡ kept failing passes at }
{
    if failing.is_some() {
        return failing;
    }
    if passes {
        return None;
    }
    Some(at)
}
