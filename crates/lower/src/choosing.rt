//! Code that chooses what comes next (Ada RM 2012, 5.3 to 5.5, 11.4).

ghost use Rattle.std.specs.Prelude.{◌≡◌, pos, map, IfOk, OnOk};
ghost use Rattle.ada_tree.specs.Programs.{bounds_of};
ghost use Rattle.ada_tree.specs.View.{choice_of, exception_choice_of, exception_of, label_of, turns_of};
ghost use Rattle.kernel_ir.specs.Sequence.{joined};
ghost use Rattle.kernel_ir.specs.Tree.{choose, no_op};
ghost use Rattle.kernel_ir.specs.declared.simple.Simple.TheVariants as op;
ghost use Rattle.statement_code.specs.Values.{one, single};
ghost use Rattle.lower.specs.Context.{names_for};
ghost use Rattle.lower.specs.Choosing.{bounds_for, choice_for, choices_for, decided_for, exception_choice_for, exception_choices_for};

use crate::context::BodyContext;
use crate::nodes::put_decision;
use crate::value::{put_number, put_static, put_value};
use ada_tree::{Choice, Decision, ExceptionChoice, ExceptionName, LoopRange, Range};
use cov_base::{number_after, number_behind, signed_numbered};
use kernel_ir::{Code, Op, Relation, Simple, Slot};
use std::alloc::{AllocError, Global};

/// Puts a decision behind code, and the code that goes on by its outcome (RM 5.3). The outcome stands in
/// a slot.
pub(crate) fn put_decided(
    alloc: Global,
    context: &BodyContext,
    code: &mut Code,
    slot: Slot,
    decision: &Decision,
    if_true: Code,
    if_false: Code,
) -> Result<(), AllocError>
    ensures { OnOk result (code.new ≡ joined code.old (decided_for context.now slot
        (label_of decision.now.label) decision.now.test if_true if_false)) }
{
    put_decision(alloc, context, code, slot, decision.label, &decision.test)?;
    code.push(Op::Choose {
        slot,
        if_true,
        if_false,
    })
}

/// Puts a comparison of two slots behind code, into a third.
pub(crate) fn put_compared(
    code: &mut Code,
    to: Slot,
    relation: Relation,
    left: Slot,
    right: Slot,
) -> Result<(), AllocError>
    ensures { OnOk result (code.new ≡ joined code.old (one (op.Compare relation to left right))) }
{
    code.push_simple(Simple::Compare {
        relation,
        to,
        left,
        right,
    })
}

/// Puts behind code whether the value in a slot is among those of a choice, into the slot behind it
/// (RM 5.4).
fn put_choice(
    alloc: Global,
    context: &BodyContext,
    code: &mut Code,
    slot: Slot,
    choice: Choice,
) -> Result<(), AllocError>
    ensures { OnOk result (code.new ≡ joined code.old (choice_for context.now slot (choice_of choice))) }
{
    let to = number_behind(slot)?;
    let bound = number_after(slot, 2)?;
    match choice {
        Choice::Value(value) => {
            put_static(context, code, bound, value)?;
            put_compared(code, to, Relation::Equal, slot, bound)
        }
        Choice::Range(first, last) => {
            put_static(context, code, bound, first)?;
            put_compared(code, to, Relation::AtMost, bound, slot)?;
            let mut below = Code::new(alloc);
            put_static(context, &mut below, bound, last)?;
            put_compared(&mut below, to, Relation::AtMost, slot, bound)?;
            code.push(Op::Choose {
                slot: to,
                if_true: below,
                if_false: Code::new(alloc),
            })
        }
        Choice::Others => put_number(code, to, 1),
    }
}

/// Puts behind code what looks on where a slot holds False.
fn put_else(alloc: Global, code: &mut Code, slot: Slot, others: Code) -> Result<(), AllocError>
    ensures { OnOk result (code.new ≡ joined code.old (single (choose slot no_op others))) }
{
    code.push(Op::Choose {
        slot,
        if_true: Code::new(alloc),
        if_false: others,
    })
}

/// Puts behind code whether the value in a slot is among those of choices, into the slot behind it: a
/// choice is looked at only where none before it fits.
pub(crate) fn put_choices(
    alloc: Global,
    context: &BodyContext,
    code: &mut Code,
    slot: Slot,
    choices: &[Choice],
) -> Result<(), AllocError>
    ensures { OnOk result (code.new ≡ joined code.old (choices_for context.now slot (map choice_of choices.now))) }
{
    let to = number_behind(slot)?;
    let Some((choice, others)) = choices.split_first() else {
        return put_number(code, to, 0);
    };
    put_choice(alloc, context, code, slot, *choice)?;
    let mut rest = Code::new(alloc);
    put_choices(alloc, context, &mut rest, slot, others)?;
    put_else(alloc, code, to, rest)
}

/// Puts the number of an exception behind code, into a slot.
fn put_exception(
    context: &BodyContext,
    code: &mut Code,
    to: Slot,
    name: ExceptionName,
) -> Result<(), AllocError>
    ensures { OnOk result (code.new
        ≡ joined code.old (one (op.Number to (pos ((names_for context.now).exception (exception_of name)))))) }
{
    let number = signed_numbered(context.exception(name)? as usize)?;
    put_number(code, to, number)
}

/// Puts behind code whether the exception in a slot is one of a choice, into the slot behind it (RM 11.4).
fn put_exception_choice(
    context: &BodyContext,
    code: &mut Code,
    slot: Slot,
    choice: ExceptionChoice,
) -> Result<(), AllocError>
    ensures { OnOk result (code.new
        ≡ joined code.old (exception_choice_for context.now slot (exception_choice_of choice))) }
{
    let to = number_behind(slot)?;
    let named = number_after(slot, 2)?;
    match choice {
        ExceptionChoice::Exception(name) => {
            put_exception(context, code, named, name)?;
            put_compared(code, to, Relation::Equal, slot, named)
        }
        ExceptionChoice::Others => put_number(code, to, 1),
    }
}

/// Puts behind code whether the exception in a slot is one of choices, into the slot behind it.
pub(crate) fn put_exception_choices(
    alloc: Global,
    context: &BodyContext,
    code: &mut Code,
    slot: Slot,
    choices: &[ExceptionChoice],
) -> Result<(), AllocError>
    ensures { OnOk result (code.new
        ≡ joined code.old (exception_choices_for context.now slot (map exception_choice_of choices.now))) }
{
    let to = number_behind(slot)?;
    let Some((choice, others)) = choices.split_first() else {
        return put_number(code, to, 0);
    };
    put_exception_choice(context, code, slot, *choice)?;
    let mut rest = Code::new(alloc);
    put_exception_choices(alloc, context, &mut rest, slot, others)?;
    put_else(alloc, code, to, rest)
}

/// The first value of a range, into a slot.
pub(crate) fn first_number(to: Slot, range: Range) -> Simple
    ensures { result ≡ op.Number to (bounds_of range).low }
{
    Simple::Number {
        to,
        value: range.first,
    }
}

/// The last value of a range, into a slot.
fn last_number(to: Slot, range: Range) -> Simple
    ensures { result ≡ op.Number to (bounds_of range).high }
{
    Simple::Number {
        to,
        value: range.last,
    }
}

/// Puts the bounds of a loop behind code, into a slot and the one behind it (RM 5.5).
pub(crate) fn put_bounds(
    alloc: Global,
    context: &BodyContext,
    code: &mut Code,
    slot: Slot,
    values: &LoopRange,
) -> Result<(), AllocError>
    ensures { OnOk result (code.new ≡ joined code.old (bounds_for context.now slot (turns_of values.now))) }
{
    let behind = number_behind(slot)?;
    match values {
        LoopRange::Subtype(range) => {
            let bounds = context.bounds(*range);
            code.push_simple(first_number(slot, bounds))?;
            code.push_simple(last_number(behind, bounds))
        }
        LoopRange::Bounds(low, high) => {
            put_value(alloc, context, code, slot, low)?;
            put_value(alloc, context, code, behind, high)
        }
    }
}
