//! The sources of the workload.

ghost use Rattle.std.specs.Prelude.{◌≡◌, ◌++◌, ◌<◌, ◌^◌, IfOk, OnOk, string_bytes};
ghost use Rattle.workload.specs.Source.{
  bound_of,
  branch_text,
  decision_text,
  next_number,
  shape_of,
  source_of,
};

use std::alloc::{AllocError, Global};

/// All lines before the decisions.
const HEAD: &[u8] =
    b"with Test_IO;\nprocedure Work is\n   A, B, C, S : Integer;\nbegin\n   S := 0;\n\
    \x20  Test_IO.Get (A);\n   Test_IO.Get (B);\n   Test_IO.Get (C);\n";

/// All lines behind them.
const TAIL: &[u8] = b"   Test_IO.Put (S);\nend Work;\n";

/// The source with this number: a procedure `Work` with so many decisions.
pub fn source_of(alloc: Global, n: u32) -> Result<Vec<u8>, AllocError>
    ensures { IfOk result (λ text. text.items ≡ source_of n) }
{
    let mut text = Vec::from_slice(alloc, HEAD)?;
    let mut number = u64::from(n);
    for _ in 0..n {
        number = next_number(number);
        push_branch(alloc, &mut text, number)?;
    }
    text.extend_from_slice(TAIL)?;
    Ok(text)
}

/// The number behind one.
fn next_number(x: u64) -> u64
    requires { x < 2 ^ 32 }
    ensures next { result ≡ next_number x }
    ensures small { result < 2 ^ 32 }
{
    (1_103_515_245 * x + 12_345) % (1 << 31)
}

/// Appends a statement that counts where its decision is true.
fn push_branch(alloc: Global, text: &mut Vec<u8>, x: u64) -> Result<(), AllocError>
    ensures { OnOk result (text.new.items ≡ text.old.items ++ branch_text x) }
{
    let decision = decision_text(alloc, (x / 65_536) % 4, (x / 262_144) % 8)?;
    let branch = format!(in alloc; "   if {decision} then\n      S := S + 1;\n   end if;\n")?;
    text.extend_from_slice(branch.as_bytes())
}

/// A decision of a shape, whose relations have one bound.
fn decision_text(alloc: Global, shape: u64, bound: u64) -> Result<String, AllocError>
    ensures { IfOk result (λ text. string_bytes text ≡ decision_text shape bound) }
{
    if shape == 0 {
        format!(in alloc; "A > {bound} and then B > {bound}")
    } else if shape == 1 {
        format!(in alloc; "A > {bound} or else B > {bound}")
    } else if shape == 2 {
        format!(in alloc; "A > {bound} and then (B > {bound} or else C > {bound})")
    } else {
        format!(in alloc; "(A > {bound} and then B > {bound}) or else C > {bound}")
    }
}
