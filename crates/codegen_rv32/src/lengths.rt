//! How many lines code has, whatever its place.

ghost use Rattle.std.specs.Prelude.{◌≡◌, ◌+◌, ℕ, IfOk};
ghost use Rattle.kernel_ir.specs.declared.simple.Simple.TheVariants as simple;
ghost use Rattle.kernel_ir.specs.TreeView.{op_of, ops_of, nodes_of};
ghost use Rattle.kernel_code.specs.Code.{simple_length, op_length, code_length, nodes_length};

use cov_base::number_after;
use kernel_ir::{Code, Node, Op, Operator, Relation, Simple};
use std::alloc::AllocError;

/// How many lines an operation has that holds no others.
fn simple_length(simple: Simple) -> u32
    ensures { result ≡ simple_length simple }
{
    match simple {
        Simple::Start { .. } => 1,
        Simple::Raise { .. } => 3,
        Simple::Number { .. }
        | Simple::LibraryAddress { .. }
        | Simple::ReadLibrary { .. }
        | Simple::WriteLibrary { .. }
        | Simple::Put { .. } => 5,
        Simple::Move { .. } => 6,
        Simple::FrameAddress { .. } => 7,
        Simple::Complement { .. } | Simple::Get { .. } => 8,
        Simple::Advance { .. } | Simple::RaiseSlot { .. } => 9,
        Simple::Offset { .. } => 10,
        Simple::Compare { relation, .. } => compare_length(relation),
        Simple::Negate { .. } => 11,
        Simple::Fill { .. } => 12,
        Simple::Within { .. } => 13,
        Simple::Absolute { .. } | Simple::Load { .. } | Simple::Store { .. } => 15,
        Simple::Arithmetic { operator, .. } => arithmetic_length(operator),
        Simple::Index { .. } => 20,
        Simple::Copy { .. } => 34,
    }
}

/// How many lines a comparison has.
fn compare_length(relation: Relation) -> u32
    ensures { (to left right : ℕ) → result ≡ simple_length (simple.Compare relation to left right) }
{
    match relation {
        Relation::Less | Relation::Greater => 10,
        Relation::Equal | Relation::Unequal | Relation::AtMost | Relation::AtLeast => 11,
    }
}

/// How many lines an operator has.
fn arithmetic_length(operator: Operator) -> u32
    ensures { (to left right : ℕ) → result ≡ simple_length (simple.Arithmetic operator to left right) }
{
    match operator {
        Operator::Add | Operator::Subtract | Operator::Multiply => 15,
        Operator::Divide => 21,
        Operator::Modulo => 17,
        Operator::Remainder => 13,
    }
}

/// The place behind a part that stands at a place, if the part's length can be told.
pub(crate) fn behind(place: u32, length: Result<u32, AllocError>) -> Result<u32, AllocError>
    ensures { (n : ℕ) → IfOk length (λ lines. lines ≡ n) → IfOk result (λ there. there ≡ place + n) }
{
    number_after(place, length?)
}

/// How many lines code has.
#[cycle(lengths)]
pub(crate) fn code_length(code: &Code) -> Result<u32, AllocError>
    ensures { IfOk result (λ n. n ≡ code_length code.now) }
{
    ops_length(&code.ops)
}

#[cycle(lengths)]
fn ops_length(ops: &[Op]) -> Result<u32, AllocError>
    ensures { IfOk result (λ n. n ≡ code_length (ops_of ops.now)) }
{
    let mut sum = 0;
    for op in ops {
        sum = behind(sum, op_length(op))?;
    }
    Ok(sum)
}

/// How many lines nodes have.
#[cycle(lengths)]
pub(crate) fn nodes_length(nodes: &[Node]) -> Result<u32, AllocError>
    ensures { IfOk result (λ n. n ≡ nodes_length (nodes_of nodes.now)) }
{
    let mut sum = 0;
    for node in nodes {
        sum = behind(8, behind(sum, code_length(&node.operand)))?;
    }
    Ok(sum)
}

/// How many lines an operation has.
#[cycle(lengths)]
pub(crate) fn op_length(op: &Op) -> Result<u32, AllocError>
    ensures { IfOk result (λ n. n ≡ op_length (op_of op.now)) }
{
    match op {
        Op::Simple(simple) => Ok(simple_length(*simple)),
        Op::Choose {
            if_true,
            if_false,
            ..
        } => both_lengths(7, if_true, if_false),
        Op::Forever(body) | Op::ForLoop(body) => behind(1, code_length(body)),
        Op::Exit | Op::Returns => Ok(1),
        Op::Catch { body, handler, .. } => both_lengths(4, body, handler),
        Op::Decide { nodes, .. } => behind(9, nodes_length(nodes)),
        Op::Call { .. } => Ok(13),
    }
}

/// How many lines two codes have, and so many more.
#[cycle(lengths)]
fn both_lengths(more: u32, first: &Code, second: &Code) -> Result<u32, AllocError>
    ensures { IfOk result (λ n. n ≡ code_length first.now + code_length second.now + more) }
{
    let before = behind(more, code_length(first))?;
    behind(before, code_length(second))
}
