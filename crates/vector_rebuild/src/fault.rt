//! Why a history is none of a run.

use thiserror::Error;

/// The history of a trace breaks at an entry: it is not its graph's root, and no edge of the latest
/// earlier entry of the same decision, instance and frame pointer leads to it. `at` counts entries
/// from 0.
#[derive(Clone, Copy, Debug, PartialEq, Eq, Error)]
#[error("broken history at {at}")]
pub struct BrokenHistory {
    pub at: u32,
}
