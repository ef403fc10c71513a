//! Consolidated files, and what they say of an object.
//!
//! | Line | Asks |
//! |---|---|
//! | `consolidated` | what the latest blob holds as a consolidated file, which is written again, or why none |
//! | `covered OBJECT` | how many runs of the object the latest blob tells of, their events, and whether they are written as it, or why it is refused |

ghost use Rattle.std.specs.Prelude.{◌≡◌, IfOk};
ghost use Rattle.trace_format.specs.ConsolidatedChecks.{IsOrdered};

use crate::objects::sameness;
use crate::reply::Reply;
use crate::runs::{put_coverage, put_event};
use cov_base::{Digest, Event};
use coverage_set::{Coverage, read_consolidated};
use decision_map::DecisionMap;
use std::alloc::{AllocError, Global};
use trace_format::{
    ConsolidatedParts, ConsolidatedView, StartEntry, VectorEntry, write_consolidated,
};

/// The runs of a view.
fn runs_of(alloc: Global, view: &ConsolidatedView<'_>) -> Result<Vec<Digest>, AllocError>
    ensures { IfOk result (λ runs. runs.items ≡ view.now.runs) }
{
    let mut runs = Vec::new(alloc);
    for at in 0..view.runs() {
        runs.push(view.run(at))?;
    }
    Ok(runs)
}

/// The starts of a view.
fn starts_of(alloc: Global, view: &ConsolidatedView<'_>) -> Result<Vec<StartEntry>, AllocError>
    ensures { IfOk result (λ starts. starts.items ≡ view.now.starts) }
{
    let mut starts = Vec::new(alloc);
    for at in 0..view.starts() {
        starts.push(view.start(at))?;
    }
    Ok(starts)
}

/// The evaluations of a view.
fn vectors_of(alloc: Global, view: &ConsolidatedView<'_>) -> Result<Vec<VectorEntry>, AllocError>
    ensures { IfOk result (λ vectors. vectors.items ≡ view.now.vectors) }
{
    let mut vectors = Vec::new(alloc);
    for at in 0..view.vectors() {
        vectors.push(view.vector(at))?;
    }
    Ok(vectors)
}

/// Puts a digest behind a word, and ends the line.
fn put_digest(out: &mut Reply, word: &str, digest: &Digest) {
    out.put(format_args!("{word} "));
    out.put_hex(digest.as_slice());
}

/// Puts whether what was written again is what was read.
fn put_sameness(out: &mut Reply, again: Result<Vec<u8>, AllocError>, bytes: &[u8]) {
    match again {
        Ok(again) => out.put(format_args!("{} again\n", sameness(again.as_slice(), bytes))),
        Err(_) => out.lack_memory(),
    }
}

/// Puts what a consolidated file lists.
fn put_lists(out: &mut Reply, parts: &ConsolidatedParts<'_>) {
    put_digest(out, "object", &parts.object);
    for run in parts.runs {
        put_digest(out, "run", run);
    }
    for start in parts.starts {
        put_event(out, Event::Start(start.statement, start.instance));
    }
    for done in parts.vectors {
        put_event(out, Event::Done(done.decision, done.instance, done.vector));
    }
}

/// Puts what a consolidated file holds, and whether it is written again.
#[tactic(auto, using(crate::proofs::Ordered::ordered_again))]
fn put_view(
    alloc: Global,
    out: &mut Reply,
    view: &ConsolidatedView<'_>,
    bytes: &[u8],
) -> Result<(), AllocError> {
    let runs = runs_of(alloc, view)?;
    let starts = starts_of(alloc, view)?;
    let vectors = vectors_of(alloc, view)?;
    let parts = ConsolidatedParts {
        object: view.object(),
        runs: runs.as_slice(),
        starts: starts.as_slice(),
        vectors: vectors.as_slice(),
    };
    put_lists(out, &parts);
    put_digest(out, "closed by", &view.closing());
    put_sameness(out, write_consolidated(alloc, &parts), bytes);
    Ok(())
}

/// Puts what a consolidated file holds.
pub(crate) fn consolidated(alloc: Global, out: &mut Reply, bytes: &[u8]) {
    match ConsolidatedView::view(bytes) {
        Ok(view) => {
            let done = put_view(alloc, out, &view, bytes);
            out.note(done);
        }
        Err(fault) => out.put(format_args!("{fault}\n")),
    }
}

/// Puts what a coverage covers, and whether it is written as the file that was read.
fn put_covered(alloc: Global, out: &mut Reply, coverage: &Coverage<'_>, bytes: &[u8]) {
    put_coverage(out, coverage);
    put_sameness(
        out,
        coverage_set::write_consolidated(alloc, coverage),
        bytes,
    );
}

/// Puts what a consolidated file says of the object of a map.
pub(crate) fn covered(alloc: Global, out: &mut Reply, map: &DecisionMap<'_>, bytes: &[u8]) {
    match read_consolidated(alloc, map, bytes) {
        Ok(coverage) => put_covered(alloc, out, &coverage, bytes),
        Err(failure) => out.put_failure(failure),
    }
}
