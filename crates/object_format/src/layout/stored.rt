//! What an object's file holds.

ghost use Rattle.std.specs.Prelude.{◌≡◌, ◌++◌, OnOk};
ghost use Rattle.spelling.specs.Format.{Format};
ghost use Rattle.spelling.specs.Outcome.{Gives};

use cov_base::Failure;
use spelling::Short;
use std::alloc::{AllocError, Global};

/// A value of an object's file: how it stands there, and what reads and writes it. The trait is this
/// crate's own, since most of the values' types are declared below it.
pub trait Stored: Sized + Drop {
    ghost format: { Format Self };

    /// Each count and length in the value fits the bytes that stand for it. Numbers always do.
    ghost is_counted: { Self → Type 0 };

    /// The value that stands first in the bytes, and the bytes that follow it. `Short` is answered
    /// where the bytes end too early.
    fn read(alloc: Global, bytes: &[u8]) -> Result<(Self, &[u8]), Failure<Short>>
        ensures { Gives (λ x. (x.0, x.1.now)) result (format.read bytes.now) };

    /// Appends the spelling of a value, which it has.
    fn write(&self, into: &mut Vec<u8>) -> Result<(), AllocError>
        requires { is_counted self.now }
        ensures appends { OnOk result (into.new.items ≡ into.old.items ++ format.spell self.now) }
        ensures fits { OnOk result (format.Fits self.now) };
}
