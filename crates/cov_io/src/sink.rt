//! Where output goes.

ghost use Rattle.std.specs.Prelude.{◌≡◌, ℕ, ◌≤◌, Option, List, OnOk, OnErr};
ghost use Rattle.cov_io.specs.Outside.{Rose, WhereTold, Appends, AppendsPrefix};

use thiserror::Error;

/// The sink did not take all of a piece.
#[derive(Clone, Copy, Debug, PartialEq, Eq, Error)]
#[error("the output could not be written")]
pub struct SinkFailed;

/// What takes output, piece by piece.
///
/// `written` is what it has taken, or `None` where it does not tell that. `failures` counts the
/// puts that failed, and stands still at `u64::MAX`.
pub trait Sink {
    ghost written: { Self → Option (List ℕ) };

    ghost failures: { Self → ℕ };

    /// Appends `bytes`, or the first of them where that fails. Takes no memory.
    fn put(&mut self, bytes: &[u8]) -> Result<(), SinkFailed>
        ensures ok { OnOk result
            (WhereTold (Appends bytes.now) (written self.old) (written self.new)) }
        ensures err { OnErr result
            (WhereTold (AppendsPrefix bytes.now) (written self.old) (written self.new)) }

        // How the count moves.
        ensures rose { OnErr result (Rose (failures self.old) (failures self.new)) }
        ensures stays { OnOk result (failures self.new ≡ failures self.old) }
        ensures later { failures self.old ≤ failures self.new };

    /// How many puts have failed.
    fn faults(&self) -> u64
        ensures { result ≡ failures self.now };
}
