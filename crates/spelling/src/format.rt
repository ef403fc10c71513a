//! Types whose values have a format, and what reads and writes them.

ghost use Rattle.std.specs.Prelude.{◌≡◌, ◌++◌, ℕ, List, [], Some, OnOk};
ghost use Rattle.spelling.specs.Format.{Format};
ghost use Rattle.spelling.specs.Laws.{IsFormat, IsBytes};
ghost use Rattle.spelling.specs.Outcome.{Gives};

use crate::fault::Short;
use cov_base::Failure;
use std::alloc::{AllocError, Global};

/// A type whose values stand in bytes by a format, of which both laws hold: what is read is spelled
/// so, and what has a spelling is read back from it.
pub trait Formatted: Sized {
    ghost format: { Format Self };

    ghost is_format: { IsFormat format };
}

/// What is read from bytes.
pub trait Readable: Formatted + Drop {
    /// The value that stands first in the bytes, and the bytes that follow it. `Short` is answered
    /// where the bytes end too early.
    fn read(alloc: Global, bytes: &[u8]) -> Result<(Self, &[u8]), Failure<Short>>
        ensures { Gives (λ x. (x.0, x.1.now)) result (Self.format.read bytes.now) };
}

/// What is written as bytes.
pub trait Writable: Formatted {
    ghost CountsFit: { Self → Type 0 };

    /// Appends the spelling of a value whose counts and lengths fit the numbers that hold them. Where
    /// memory is refused, `into` may hold a part of it.
    fn write(&self, into: &mut Vec<u8>) -> Result<(), AllocError>
        requires { CountsFit self.now }
        ensures spelled { OnOk result (into.new.items ≡ into.old.items ++ Self.format.spell self.now) }
        ensures fits { OnOk result (Self.format.Fits self.now) };
}

/// A law: values that are spelled alike are one value.
pub fn one_value<T: Formatted>()
    ensures { (x y : T) → T.format.Fits x → T.format.Fits y → T.format.spell x ≡ T.format.spell y → x ≡ y }
{}

/// A law: bytes that are read to their end as a value are its spelling, so each value has one.
pub fn one_spelling<T: Formatted>()
    ensures { (bytes : List ℕ) (x : T) → IsBytes bytes → T.format.read bytes ≡ Some (x, []) → T.format.Fits x × (bytes ≡ T.format.spell x) }
{}
