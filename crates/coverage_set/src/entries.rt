//! The entries of consolidated files that events are.

ghost use Rattle.std.specs.Prelude.{◌≡◌, ◌++◌, IfOk, OnOk, option_to_list};
ghost use Rattle.coverage_set.specs.Written.{start_in, starts_among, vector_in, vectors_among};

use cov_base::Event;
use std::alloc::{AllocError, Global};
use trace_format::{StartEntry, VectorEntry};

/// The starts among events, in their order.
pub fn starts_among(alloc: Global, events: &[Event]) -> Result<Vec<StartEntry>, AllocError>
    ensures { IfOk result (λ starts. starts.items ≡ starts_among events.now) }
{
    let mut starts = Vec::new(alloc);
    for event in events {
        add_start(&mut starts, event)?;
    }
    Ok(starts)
}

/// The evaluations among events, in their order.
pub fn vectors_among(alloc: Global, events: &[Event]) -> Result<Vec<VectorEntry>, AllocError>
    ensures { IfOk result (λ vectors. vectors.items ≡ vectors_among events.now) }
{
    let mut vectors = Vec::new(alloc);
    for event in events {
        add_vector(&mut vectors, event)?;
    }
    Ok(vectors)
}

/// Adds the entry of an event, if it is a start.
fn add_start(starts: &mut Vec<StartEntry>, event: &Event) -> Result<(), AllocError>
    ensures { OnOk result (starts.new.items ≡ starts.old.items ++ option_to_list (start_in event.now)) }
{
    if let Event::Start(statement, instance) = event {
        starts.push(StartEntry {
            statement: *statement,
            instance: *instance,
        })?;
    }
    Ok(())
}

/// Adds the entry of an event, if it is an evaluation.
fn add_vector(vectors: &mut Vec<VectorEntry>, event: &Event) -> Result<(), AllocError>
    ensures { OnOk result (vectors.new.items ≡ vectors.old.items ++ option_to_list (vector_in event.now)) }
{
    if let Event::Done(decision, instance, vector) = event {
        vectors.push(VectorEntry {
            decision: *decision,
            instance: *instance,
            vector: *vector,
        })?;
    }
    Ok(())
}
