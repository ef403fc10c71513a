//! The checks of a consolidated file's entries.

ghost use Rattle.std.specs.Prelude.{◌≡◌};
ghost use Rattle.trace_format.specs.ConsolidatedChecks as checks;

use super::{StartEntry, VectorEntry};
use cov_base::Digest;
use spelling::Check;

/// The digests of runs strictly rise, byte by byte.
pub struct RunsRise;

impl Check<Digest> for RunsRise {
    ghost passes = { checks.run_rises };

    fn passes(before: &Option<Digest>, run: &Digest) -> bool {
        match before {
            Some(before) => before.cmp(run).is_lt(),
            None => true,
        }
    }
}

/// Starts strictly rise, by statement and instance.
pub struct StartsRise;

impl Check<StartEntry> for StartsRise {
    ghost passes = { checks.start_rises };

    fn passes(before: &Option<StartEntry>, start: &StartEntry) -> bool {
        match before {
            Some(before) => before.order(start).is_lt(),
            None => true,
        }
    }
}

/// Evaluations strictly rise, by decision, instance, and the numbers of the vector.
pub struct VectorsRise;

impl Check<VectorEntry> for VectorsRise {
    ghost passes = { checks.vector_rises };

    fn passes(before: &Option<VectorEntry>, entry: &VectorEntry) -> bool {
        match before {
            Some(before) => before.order(entry).is_lt(),
            None => true,
        }
    }
}

/// No condition is True that was not evaluated.
pub struct TrueWhereSeen;

impl Check<VectorEntry> for TrueWhereSeen {
    ghost passes = { checks.is_true_where_seen };

    fn passes(_before: &Option<VectorEntry>, entry: &VectorEntry) -> bool {
        entry.vector.value & entry.vector.seen == entry.vector.value
    }
}
