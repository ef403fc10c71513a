//! Code of procedure calls (Ada RM 2012, 6.4, 6.4.1).

ghost use Rattle.std.specs.Prelude.{◌≡◌, ℕ, drop, OnOk};
ghost use Rattle.std.specs.Option.{option_copied};
ghost use Rattle.ada_meaning.specs.Program.{get_target, put_target};
ghost use Rattle.lower.specs.declared.context.BodyContext.{BodyContext};
ghost use Rattle.ada_meaning.specs.Calls.{next_parameter};
ghost use Rattle.ada_resolved.specs.Sizes.{words as words_of};
ghost use Rattle.ada_tree.specs.Programs.{mode_of, target_of};
ghost use Rattle.ada_tree.specs.View.{actuals_of, object_of, parts_of, scalar_range_of};
ghost use Rattle.kernel_ir.specs.Sequence.{joined};
ghost use Rattle.kernel_ir.specs.declared.simple.Simple.TheVariants as op;
ghost use Rattle.statement_code.specs.Statements.{copied_back};
ghost use Rattle.statement_code.specs.Values.{one};
ghost use Rattle.lower.specs.Context.{parameters_for, signature_for};
ghost use Rattle.lower.specs.Procedures.{back_for, backs_for, get_for, input_for, kept_for, output_for, procedure_for, put_for, stored_for};

use crate::calls::{parameter_at, put_call};
use crate::context::{BASE, BodyContext, Signature};
use crate::expressions::within;
use crate::parts::{has_parts, put_located};
use crate::value::put_value;
use ada_tree::{Actual, Expr, Mode, Object, ScalarRange, Selector, Target};
use cov_base::{number_after, number_behind};
use frame_widths::slots_of;
use kernel_ir::{Code, Simple, Slot};
use std::alloc::{AllocError, Global};

/// What is copied back of a composite parameter: its mode, and its size in words.
#[derive(Clone, Copy)]
pub(crate) struct Returned {
    pub mode: Mode,
    pub words: u32,
}

/// A variable, or a part of one, that gets a word of the input, with its subtype.
#[derive(Clone, Copy)]
pub(crate) struct Gotten<'a> {
    pub object: Object,
    pub selectors: &'a [Selector],
    pub range: ScalarRange,
}

impl BodyContext<'_> {
    /// What is copied back of the parameter with this place.
    fn returned(&self, signature: Signature, place: usize) -> Returned
        ensures mode { mode_of result.mode
            ≡ (next_parameter (drop place (signature_for self.now signature.entry))).mode }
        ensures words { result.words
            ≡ words_of (next_parameter (drop place (signature_for self.now signature.entry))).shape }
    {
        let Some(parameter) = parameter_at(signature.parameters, place) else {
            return Returned {
                mode: Mode::In,
                words: 1,
            };
        };
        let of = self.sizes.named(signature.instance, parameter.subtype);
        Returned {
            mode: parameter.mode,
            words: self.sizes.words(of),
        }
    }
}

/// Puts a slot's value behind code, into a variable whose subtype has to have it.
fn put_kept_from(
    context: &BodyContext,
    code: &mut Code,
    from: Slot,
    object: Object,
    range: ScalarRange,
) -> Result<(), AllocError>
    ensures { OnOk result (code.new ≡ joined code.old (kept_for context.now from object range)) }
{
    code.push_simple(within(from, context.bounds(range)))?;
    code.push_simple(context.home(object).keep(from))
}

/// The same for a part of a variable, whose address a slot holds.
fn put_stored(
    context: &BodyContext,
    code: &mut Code,
    address: Slot,
    from: Slot,
    range: ScalarRange,
) -> Result<(), AllocError>
    ensures { OnOk result (code.new ≡ joined code.old (stored_for context.now address from range)) }
{
    code.push_simple(within(from, context.bounds(range)))?;
    code.push_simple(Simple::Store { address, from })
}

/// Puts behind code what copies a composite parameter back: nothing for one of mode in.
fn put_copied(
    code: &mut Code,
    address: Slot,
    from: Slot,
    returned: Returned,
) -> Result<(), AllocError>
    ensures { OnOk result (code.new ≡ joined code.old
        (copied_back (mode_of returned.mode) (one (op.Copy address from returned.words)))) }
{
    if let Mode::In = returned.mode {
        return Ok(());
    }
    code.push_simple(Simple::Copy {
        to: address,
        from,
        words: returned.words,
    })
}

/// Puts behind code what copies a parameter back to its actual, which stands in a slot or has its address
/// there. What a variable gets is checked (RM 6.4.1).
fn put_back(
    context: &BodyContext,
    code: &mut Code,
    slot: Slot,
    from: Slot,
    returned: Returned,
    actual: &Actual,
) -> Result<(), AllocError>
    ensures { OnOk result (code.new ≡ joined code.old
        (back_for context.now slot from (mode_of returned.mode) returned.words actual.now)) }
{
    match actual {
        Actual::Expression(_) => Ok(()),
        Actual::Variable(object, range) => put_kept_from(context, code, from, *object, *range),
        Actual::Part(object, selectors, range) => {
            if !has_parts(selectors) {
                return put_kept_from(context, code, from, *object, *range);
            }
            put_stored(context, code, slot, from, *range)
        }
        Actual::Composite(..) => put_copied(code, slot, from, returned),
    }
}

/// Puts behind code what copies the parameters of a call back, from the left.
fn put_backs(
    context: &BodyContext,
    code: &mut Code,
    slot: Slot,
    target: Target,
    actuals: &[Actual],
) -> Result<(), AllocError>
    ensures { OnOk result (code.new ≡ joined code.old
        (backs_for context.now slot 0 (parameters_for context.now (target_of target)) (actuals_of actuals.now))) }
{
    let signature = context.signature(target);
    let mut at = slot;
    let mut from = context.width;
    for (place, actual) in actuals.iter().enumerate() {
        put_back(
            context,
            code,
            at,
            from,
            context.returned(signature, place),
            actual,
        )?;
        at = number_after(at, slots_of(actual))?;
        from = number_behind(from)?;
    }
    Ok(())
}

/// Puts behind code what puts the value of an expression.
fn put_output(
    alloc: Global,
    context: &BodyContext,
    code: &mut Code,
    slot: Slot,
    expr: &Expr,
) -> Result<(), AllocError>
    ensures { OnOk result (code.new ≡ joined code.old (put_for context.now slot expr.now)) }
{
    put_value(alloc, context, code, slot, expr)?;
    code.push_simple(within(slot, BASE))?;
    code.push_simple(Simple::Put { from: slot })
}

/// Puts behind code what sets a variable, or a part of one, to the next word of the input.
fn put_input(
    alloc: Global,
    context: &BodyContext,
    code: &mut Code,
    slot: Slot,
    variable: Gotten,
) -> Result<(), AllocError>
    ensures { OnOk result (code.new ≡ joined code.old
        (get_for context.now slot (object_of variable.entry.object) (parts_of variable.entry.selectors.now)
        (scalar_range_of variable.entry.range))) }
{
    if !has_parts(variable.selectors) {
        code.push_simple(Simple::Get { to: slot })?;
        return put_kept_from(context, code, slot, variable.object, variable.range);
    }
    put_located(
        alloc,
        context,
        code,
        slot,
        variable.object,
        variable.selectors,
    )?;
    let from = number_behind(slot)?;
    code.push_simple(Simple::Get { to: from })?;
    put_stored(context, code, slot, from, variable.range)
}

/// The expression that is put; none, where a call has none.
fn expression_in(actuals: &[Actual]) -> Option<&Expr>
    ensures { (c : BodyContext) (k : ℕ) → output_for c k (option_copied result)
        ≡ procedure_for c k put_target (actuals_of actuals.now) }
{
    let (first, _) = actuals.split_first()?;
    match first {
        Actual::Expression(expr) => Some(expr),
        _ => None,
    }
}

/// The variable that is gotten; none, where a call has none.
fn variable_in(actuals: &[Actual]) -> Option<Gotten<'_>>
    ensures { (c : BodyContext) (k : ℕ) → input_for c k result ≡ procedure_for c k get_target (actuals_of actuals.now) }
{
    let (first, _) = actuals.split_first()?;
    match first {
        Actual::Variable(object, range) => Some(Gotten {
            object: *object,
            selectors: &[],
            range: *range,
        }),
        Actual::Part(object, selectors, range) => Some(Gotten {
            object: *object,
            selectors,
            range: *range,
        }),
        _ => None,
    }
}

/// Puts what a call of a procedure does behind code; the slots from one on are free for that.
pub(crate) fn put_procedure(
    alloc: Global,
    context: &BodyContext,
    code: &mut Code,
    slot: Slot,
    target: Target,
    actuals: &[Actual],
) -> Result<(), AllocError>
    ensures { OnOk result (code.new
        ≡ joined code.old (procedure_for context.now slot (target_of target) (actuals_of actuals.now))) }
{
    match target {
        Target::TestPut => match expression_in(actuals) {
            Some(expr) => put_output(alloc, context, code, slot, expr),
            None => Ok(()),
        },
        Target::TestGet => match variable_in(actuals) {
            Some(variable) => put_input(alloc, context, code, slot, variable),
            None => Ok(()),
        },
        Target::Body(..) => {
            put_call(alloc, context, code, slot, target, actuals)?;
            put_backs(context, code, slot, target, actuals)
        }
    }
}
