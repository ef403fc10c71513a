//! Code of calls (Ada RM 2012, 6.4).

ghost use Rattle.std.specs.Prelude.{◌≡◌, ◌+◌, drop, slice_get, IfOk, OnOk};
ghost use Rattle.ada_meaning.specs.Calls.{next_parameter, word_bounds};
ghost use Rattle.ada_tree.specs.declared.program.Program.{Program};
ghost use Rattle.ada_resolved.specs.Built.{shape_of_form};
ghost use Rattle.ada_tree.specs.Programs.{bounds_of, mode_of, target_of};
ghost use Rattle.ada_tree.specs.View.{actuals_of, object_of};
ghost use Rattle.kernel_ir.specs.Sequence.{joined};
ghost use Rattle.statement_code.specs.Values.{body_number, moves_code};
ghost use Rattle.lower.specs.Context.{signature_for, site_for};
ghost use Rattle.lower.specs.Pieces.{actual_for, call_for, loaded_on, variable_for};

use crate::context::{BASE, BodyContext, Signature};
use crate::expressions::within;
use crate::parts::{has_parts, put_located};
use crate::value::put_value;
use ada_resolved::TypeForm;
use ada_tree::{Actual, Mode, Object, Parameter, Range, Target};
use cov_base::{number_after, number_behind};
use frame_widths::slots_of;
use kernel_ir::{Code, Op, Simple, Slot};
use std::alloc::{AllocError, Global};

/// What a scalar parameter takes: its mode, and the values of its subtype.
#[derive(Clone, Copy)]
pub(crate) struct Taken {
    pub mode: Mode,
    pub bounds: Range,
}

/// The parameter with this place, if there is one.
pub(crate) fn parameter_at(parameters: &[Parameter], place: usize) -> Option<Parameter>
    ensures { result ≡ slice_get parameters.now place }
{
    parameters.get(place).copied()
}

/// The values of a scalar type; those of the base range for another.
fn scalar_range(form: TypeForm) -> Range
    ensures { (p : Program) → bounds_of result ≡ word_bounds (shape_of_form p form.entry) }
{
    match form {
        TypeForm::Scalar(range) => range,
        _ => BASE,
    }
}

impl BodyContext<'_> {
    /// What the parameter with this place takes: any value, where there is no such scalar parameter.
    fn taken(&self, signature: Signature, place: usize) -> Taken
        ensures mode { mode_of result.mode
            ≡ (next_parameter (drop place (signature_for self.now signature.entry))).mode }
        ensures bounds { bounds_of result.bounds
            ≡ word_bounds (next_parameter (drop place (signature_for self.now signature.entry))).shape }
    {
        let Some(parameter) = parameter_at(signature.parameters, place) else {
            return Taken {
                mode: Mode::In,
                bounds: BASE,
            };
        };
        let of = self.sizes.named(signature.instance, parameter.subtype);
        Taken {
            mode: parameter.mode,
            bounds: scalar_range(self.sizes.form(of)),
        }
    }

    /// The number of the body that a call comes to; 0 for what has none.
    fn called(&self, target: Target) -> Result<u32, AllocError>
        ensures { IfOk result (λ n. n ≡ body_number (site_for self.now) (target_of target)) }
    {
        match target {
            Target::TestGet | Target::TestPut => Ok(0),
            Target::Body(instance, subprogram) => self.body(instance, subprogram),
        }
    }
}

/// Puts the value of a variable behind code, for a scalar parameter: none for one of mode out.
fn put_variable(
    context: &BodyContext,
    code: &mut Code,
    to: Slot,
    taken: Taken,
    object: Object,
) -> Result<(), AllocError>
    ensures { OnOk result (code.new
        ≡ joined code.old (variable_for context.now to (mode_of taken.mode) (bounds_of taken.bounds) object)) }
{
    if let Mode::Out = taken.mode {
        return Ok(());
    }
    code.push_simple(context.home(object).fetch(to))?;
    code.push_simple(within(to, taken.bounds))
}

/// Puts the value of the part of a variable behind code whose address a slot holds, into the slot behind
/// it: none for a parameter of mode out.
fn put_loaded(code: &mut Code, address: Slot, taken: Taken) -> Result<(), AllocError>
    ensures { OnOk result (code.new
        ≡ joined code.old (loaded_on address (mode_of taken.mode) (bounds_of taken.bounds))) }
{
    if let Mode::Out = taken.mode {
        return Ok(());
    }
    let to = number_behind(address)?;
    code.push_simple(Simple::Load { to, address })?;
    code.push_simple(within(to, taken.bounds))
}

/// Puts an actual behind code, into slots: a value that the parameter takes, or an address (RM 6.4.1).
#[cycle(evaluation)]
fn put_actual(
    alloc: Global,
    context: &BodyContext,
    code: &mut Code,
    to: Slot,
    taken: Taken,
    actual: &Actual,
) -> Result<(), AllocError>
    ensures { OnOk result (code.new
        ≡ joined code.old (actual_for context.now to (mode_of taken.mode) (bounds_of taken.bounds) actual.now)) }
{
    match actual {
        Actual::Expression(expr) => {
            put_value(alloc, context, code, to, expr)?;
            code.push_simple(within(to, taken.bounds))
        }
        Actual::Variable(object, _) => put_variable(context, code, to, taken, *object),
        Actual::Part(object, selectors, _) => {
            if !has_parts(selectors) {
                return put_variable(context, code, to, taken, *object);
            }
            put_located(alloc, context, code, to, *object, selectors)?;
            put_loaded(code, to, taken)
        }
        Actual::Composite(object, selectors) => {
            put_located(alloc, context, code, to, *object, selectors)
        }
    }
}

/// Puts moves behind code: the values and addresses of actuals go into the first slots of the callee's
/// frame, which begins behind so many slots.
fn put_moves(code: &mut Code, width: Slot, from: Slot, actuals: &[Actual]) -> Result<(), AllocError>
    ensures { OnOk result (code.new ≡ joined code.old (moves_code width from 0 (actuals_of actuals.now))) }
{
    let mut behind = from;
    let mut to = width;
    for actual in actuals {
        let next = number_after(behind, slots_of(actual))?;
        code.push_simple(Simple::Move { to, from: next - 1 })?;
        behind = next;
        to = number_behind(to)?;
    }
    Ok(())
}

/// Puts a call behind code: its actuals are worked out in the slots from one on, and go behind the frame.
#[cycle(evaluation)]
pub(crate) fn put_call(
    alloc: Global,
    context: &BodyContext,
    code: &mut Code,
    to: Slot,
    target: Target,
    actuals: &[Actual],
) -> Result<(), AllocError>
    ensures { OnOk result (code.new
        ≡ joined code.old (call_for context.now to (target_of target) (actuals_of actuals.now))) }
{
    let signature = context.signature(target);
    let mut slot = to;
    for (place, actual) in actuals.iter().enumerate() {
        put_actual(
            alloc,
            context,
            code,
            slot,
            context.taken(signature, place),
            actual,
        )?;
        slot = number_after(slot, slots_of(actual))?;
    }
    put_moves(code, context.width, to, actuals)?;
    let body = context.called(target)?;
    code.push(Op::Call { body })
}
