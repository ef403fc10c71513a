//! The vectors of a decision in their order, each once.

ghost use Rattle.std.specs.Prelude.{IfOk};
ghost use Rattle.annotated_report.specs.Members.{AreAlike};

use cov_base::Vector;
use mcdc_verdicts::compare;
use std::alloc::{AllocError, Global};

/// The same vectors in their order, each once: so the least pairs of them are found soon, also where
/// there are many evaluations, and copies of a generic give the same vectors.
pub fn in_order_once(alloc: Global, vectors: &[Vector]) -> Result<Vec<Vector>, AllocError>
    ensures { IfOk result (λ ordered. AreAlike ordered.items vectors.now) }
{
    let mut ordered = Vec::from_slice(alloc, vectors)?;
    ordered.sort_unstable_by(|v, w| compare(*v, *w));
    ordered.dedup();
    Ok(ordered)
}
