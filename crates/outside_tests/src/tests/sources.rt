//! A source of the workload, and its inputs, as they are worked out by hand.

use std::alloc::{AllocError, Global};
use workload::{Triple, inputs_of, source_of};

/// The source with number 4: its decisions have the shapes 1, 2, 3 and 3, and the bounds 6, 1, 6 and 7.
static FOURTH: &str =
    "with Test_IO;\nprocedure Work is\n   A, B, C, S : Integer;\nbegin\n   S := 0;\n\
    \x20  Test_IO.Get (A);\n   Test_IO.Get (B);\n   Test_IO.Get (C);\n\
    \x20  if A > 6 or else B > 6 then\n      S := S + 1;\n   end if;\n\
    \x20  if A > 1 and then (B > 1 or else C > 1) then\n      S := S + 1;\n   end if;\n\
    \x20  if (A > 6 and then B > 6) or else C > 6 then\n      S := S + 1;\n   end if;\n\
    \x20  if (A > 7 and then B > 7) or else C > 7 then\n      S := S + 1;\n   end if;\n\
    \x20  Test_IO.Put (S);\nend Work;\n";

/// Whether the source is so.
fn is_fourth(alloc: Global) -> Result<bool, AllocError> {
    let source = source_of(alloc, 4)?;
    Ok(source.as_slice() == FOURTH.as_bytes())
}

#[test]
fn a_source_has_a_decision_for_each_of_its_numbers(rt: HostRuntime) {
    assert!(rt; is_fourth(rt.alloc()) == Ok(true));
}

/// Whether there are eight inputs, and the last of them is 7, 6, 5.
fn are_eight(alloc: Global) -> Result<bool, AllocError> {
    let inputs = inputs_of(alloc, 4)?;
    let last = Triple { a: 7, b: 6, c: 5 };
    Ok(inputs.len() == 8 && inputs.last() == Some(&last))
}

#[test]
fn there_are_eight_inputs(rt: HostRuntime) {
    assert!(rt; are_eight(rt.alloc()) == Ok(true));
}
