//! Which statements were started.

ghost use Rattle.std.specs.Prelude.{◌≡◌, ◌<◌, ℕ, true, length, slice_set, nat_lt, IfOk, if◌then◌else◌};
ghost use Rattle.annotated_report.specs.Marked.{marked};
ghost use Rattle.annotated_report.specs.Verdicts.{is_started};

use cov_base::Event;
use std::alloc::{AllocError, Global};

/// Marks a number, if there is room for it.
fn mark(marks: &mut [bool], number: usize)
    ensures { marks.new ≡ (if nat_lt number (length marks.old) then slice_set marks.old number true else marks.old) }
{
    if number < marks.len() {
        marks[number] = true;
    }
}

/// Which statements were started in any instance, by their numbers, for so many statements.
pub fn started(alloc: Global, count: usize, events: &[Event]) -> Result<Vec<bool>, AllocError>
    ensures length { IfOk result (λ marks. length marks.items ≡ count) }
    ensures marks { IfOk result (λ marks. (n : ℕ) → n < count → marked marks.items n ≡ is_started events.now n) }
{
    let mut marks = vec![in alloc; false; count]?;
    for event in events {
        if let Event::Start(statement, _) = event {
            mark(marks.as_mut_slice(), statement.0 as usize);
        }
    }
    Ok(marks)
}
