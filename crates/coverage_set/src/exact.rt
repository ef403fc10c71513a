//! Values whose comparison tells them apart.

ghost use Rattle.std.specs.Prelude.{◌≡◌};
ghost use Rattle.std.specs.declared.cmp.Ordering.TheVariants.{Equal};
ghost use Rattle.coverage_set.specs.Exact.{event_exact, digest_exact, decided_exact};

use crate::consolidated::Decided;
use cov_base::{Digest, Event};

/// Two values that compare as equal are one.
pub trait Exact: Ord + Copy {
    /// A number in which values mostly differ. Whatever it is, nothing but speed hangs on it.
    fn spread(&self) -> usize;

    ghost exact: { (x y : Self) → Self.cmp x y ≡ Equal → x ≡ y };
}

impl Exact for Event {
    ghost exact = { event_exact };

    #[inline(always)]
    fn spread(&self) -> usize {
        match *self {
            Event::Start(statement, _) => statement.0 as usize,
            Event::Done(decision, _, vector) => {
                (decision.0 ^ vector.value ^ (vector.seen >> 2) ^ (vector.value >> 6)) as usize
            }
        }
    }
}

impl Exact for Digest {
    ghost exact = { digest_exact };

    #[inline(always)]
    fn spread(&self) -> usize {
        self[0] as usize
    }
}

impl Exact for Decided {
    ghost exact = { decided_exact };

    #[inline(always)]
    fn spread(&self) -> usize {
        self.decision.0 as usize
    }
}
