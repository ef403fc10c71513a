//! Code of bodies (Ada RM 2012, 6.3, 6.4.1).

ghost use Rattle.std.specs.Prelude.{◌≡◌, ◌≤◌, ℕ, drop, map, option_map, OnOk};
ghost use Rattle.ada_meaning.specs.Resolved.{ResolvedParameter};
ghost use Rattle.ada_tree.specs.declared.program.Program.{Program};
ghost use Rattle.ada_tree.specs.Programs.{bounds_of, mode_of};
ghost use Rattle.ada_resolved.specs.Built.{shape_of_form};
ghost use Rattle.kernel_ir.specs.Sequence.{joined};
ghost use Rattle.kernel_ir.specs.declared.simple.Simple.TheVariants as op;
ghost use Rattle.statement_code.specs.Bodies.{ending_code, parameter_code, parameter_in, scalar_parameter};
ghost use Rattle.statement_code.specs.Values.{one};
ghost use Rattle.lower.specs.declared.context.BodyContext.{BodyContext};
ghost use Rattle.lower.specs.Context.{home_for, layout_for, parameter_for, signature_for};
ghost use Rattle.lower.specs.Entered.{all_entered_for, body_for, entered_for, parameter_by};

use crate::choosing::first_number;
use crate::compound::put_frame;
use crate::context::{BodyContext, Signature};
use ada_resolved::TypeForm;
use ada_tree::{Block, Mode, Object, Parameter, Range};
use cov_base::number_behind;
use kernel_ir::{Code, Simple, Slot};
use std::alloc::{AllocError, Global};

/// The values of a scalar type; none for an array or a record.
fn scalar_in(form: TypeForm) -> Option<Range>
    ensures { (p : Program) (c : BodyContext) (k i : ℕ) (q : ResolvedParameter)
        → parameter_by c k i q (option_map bounds_of result)
        ≡ parameter_code (home_for c) (layout_for c) k i q (shape_of_form p form.entry) }
{
    match form {
        TypeForm::Scalar(range) => Some(range),
        TypeForm::Array(..) | TypeForm::Record(_) => None,
    }
}

/// Puts what sets a scalar parameter behind code, which stands in the slot of its number: one of mode out
/// gets its subtype's first value, another has its argument.
fn put_scalar_parameter(
    code: &mut Code,
    slot: Slot,
    mode: Mode,
    range: Range,
) -> Result<(), AllocError>
    ensures { OnOk result (code.new ≡ joined code.old
        (scalar_parameter slot (mode_of mode) (one (op.Number slot (bounds_of range).low)))) }
{
    if let Mode::Out = mode {
        return code.push_simple(first_number(slot, range));
    }
    Ok(())
}

/// What gives a composite parameter its words, whose address a slot holds: those of its actual, whose
/// address stands in another slot, or first values.
fn given_in(to: Slot, from: Slot, mode: Mode, words: u32, layout: u32) -> Simple
    ensures { result ≡ parameter_in to from (mode_of mode) words layout }
{
    match mode {
        Mode::Out => Simple::Fill { at: to, layout },
        Mode::In | Mode::InOut => Simple::Copy { to, from, words },
    }
}

/// Puts what sets a parameter behind code, with the number of its argument's slot (RM 6.4.1).
fn put_parameter(
    context: &BodyContext,
    code: &mut Code,
    slot: Slot,
    argument: Slot,
    instance: u32,
    parameter: Parameter,
) -> Result<(), AllocError>
    ensures { OnOk result (code.new ≡ joined code.old
        (entered_for context.now slot argument (parameter_for context.now instance parameter))) }
{
    let of = context.sizes.named(instance, parameter.subtype);
    if let Some(range) = scalar_in(context.sizes.form(of)) {
        return put_scalar_parameter(code, argument, parameter.mode, range);
    }
    code.push_simple(context.home(Object::Local(parameter.number)).address(slot))?;
    let layout = context.layout(parameter.number)?;
    let words = context.sizes.words(of);
    code.push_simple(given_in(slot, argument, parameter.mode, words, layout))?;
    code.push_simple(Simple::Move {
        to: argument,
        from: slot,
    })
}

/// Puts what sets parameters behind code, from the left.
fn put_parameters(
    context: &BodyContext,
    code: &mut Code,
    slot: Slot,
    signature: Signature,
) -> Result<(), AllocError>
    ensures { OnOk result (code.new
        ≡ joined code.old (all_entered_for context.now slot 0 (signature_for context.now signature.entry))) }
{
    let mut argument = 0;
    for parameter in signature.parameters {
        put_parameter(
            context,
            code,
            slot,
            argument,
            signature.instance,
            *parameter,
        )?;
        argument = number_behind(argument)?;
    }
    Ok(())
}

/// Puts the end of a body behind code: a function that comes to it raises Program_Error (RM 6.4).
fn put_ending(code: &mut Code, gives: bool) -> Result<(), AllocError>
    ensures { OnOk result (code.new ≡ joined code.old (ending_code gives)) }
{
    if gives {
        return code.push_simple(Simple::Raise { exception: 2 });
    }
    Ok(())
}

/// Puts a body behind code, with the slots from one on free to work in: its parameters are set, its block
/// is executed, and its end is reached. `gives` tells a function.
pub(crate) fn put_body(
    alloc: Global,
    context: &BodyContext,
    code: &mut Code,
    slot: Slot,
    signature: Signature,
    gives: bool,
    block: &Block,
) -> Result<(), AllocError>
    ensures { OnOk result (code.new ≡ joined code.old
        (body_for context.now slot gives (signature_for context.now signature.entry) block.now)) }
{
    put_parameters(context, code, slot, signature)?;
    put_frame(alloc, context, code, slot, 0, block)?;
    put_ending(code, gives)
}
