//! What is told of sources that were compiled, and of those that were refused.

ghost use Rattle.std.specs.Prelude.{◌≡◌, IfOk, IfErr, length, sum_by};
ghost use Rattle.commands.specs.Content.{object_lines};
ghost use Rattle.commands.specs.declared.status.Status.TheVariants.{WantOfMemory};
ghost use Rattle.commands.specs.Failures.{source_status};

use crate::status::Status;
use cov_base::{DecEntry, Failure, count_of_both};
use object_format::Object;
use program_objects::{Compiled, SourceFault};
use std::alloc::{AllocError, Global};

/// The object file that was compiled, and the lines that tell of it.
pub fn told(alloc: Global, compiled: Compiled) -> Result<(Vec<u8>, Vec<u8>), Status>
    ensures made { IfOk result (λ made. (made.0.items ≡ compiled.file)
        × (made.1.items ≡ object_lines compiled.object)) }
    ensures refused { IfErr result (λ status. status ≡ WantOfMemory) }
{
    let text = lines(alloc, &compiled.object)?;
    Ok((Vec::from(compiled.file), text))
}

/// How many conditions decisions have; none where there is no number for them.
fn condition_count(decisions: &[DecEntry]) -> Result<usize, AllocError>
    ensures { IfOk result (λ count. count ≡ sum_by (λ d. length d.conditions) decisions.now) }
{
    let mut count: usize = 0;
    for decision in decisions {
        count = count_of_both(count, decision.conditions.len())?;
    }
    Ok(count)
}

/// The lines that tell what was compiled.
fn lines(alloc: Global, object: &Object) -> Result<Vec<u8>, AllocError>
    ensures { IfOk result (λ text. text.items ≡ object_lines object.now) }
{
    let statements = object.obligations.statements.len();
    let decisions = object.obligations.decisions.len();
    let conditions = condition_count(object.obligations.decisions.as_slice())?;
    let closing = hex::encode(alloc, object.closing.as_slice())?;
    let text = format!(in alloc;
        "obligations: {statements} statements, {decisions} decisions, {conditions} conditions\nobject: {closing}\n"
    )?;
    Ok(text.into_bytes())
}

/// The status of sources that are refused.
pub fn status_of(failure: Failure<SourceFault>) -> Status
    ensures { result ≡ source_status failure }
{
    match failure {
        Failure::Fault(
            SourceFault {
                file,
                line,
                col,
                why,
            },
        ) => Status::SourceRefused {
            file,
            line,
            col,
            why,
        },
        Failure::WantOfMemory => Status::WantOfMemory,
    }
}
