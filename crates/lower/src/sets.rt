//! Code that sets objects, and parts of them (Ada RM 2012, 4.3.3, 5.2).

ghost use Rattle.std.specs.Prelude.{◌≡◌, ◌≤◌, ℕ, pos, IfNone, IfOk, IfSome, OnOk};
ghost use Rattle.ada_meaning.specs.Shape.{Shape};
ghost use Rattle.ada_meaning.specs.Tree as tree;
ghost use Rattle.ada_resolved.specs.Sizes.{word_limit};
ghost use Rattle.ada_resolved.specs.Sizes.{words as words_of};
ghost use Rattle.ada_tree.specs.View.{is_filled, object_of, others_of, parts_of, value_of};
ghost use Rattle.kernel_ir.specs.Sequence.{joined};
ghost use Rattle.kernel_ir.specs.declared.simple.Simple.TheVariants as op;
ghost use Rattle.statement_code.specs.Sets.{next_code, turn_code};
ghost use Rattle.lower.specs.Context.{shape_named, text};
ghost use Rattle.lower.specs.Settings.{assign_at_for, assign_for, kept_of, others_for, others_with, set_for, setting_of};
ghost use Rattle.lower.specs.declared.context.BodyContext.{BodyContext};
ghost use Rattle.lower.specs.declared.sets.Setting.{Setting};

use crate::context::BodyContext;
use crate::expressions::within;
use crate::parts::{has_parts, part_of, put_located};
use crate::value::put_value;
use ada_resolved::{TypeForm, TypeIn};
use ada_tree::{Expr, NewValue, Object, Owner, ScalarRange, Selector};
use cov_base::number_behind;
use kernel_ir::{Code, Op, Relation, Simple, Slot};
use std::alloc::{AllocError, Global};

/// What an object is set to, without `(others => ..)`.
#[derive(Clone, Copy)]
pub(crate) enum Setting<'a> {
    /// An expression, for a scalar object of this subtype.
    Scalar(ScalarRange, &'a Expr),
    /// An object or a part of one, of the composite type with this number.
    Composite(Owner, u32, Object, &'a [Selector]),
}

/// An expression that a scalar object of this subtype is set to.
#[derive(Clone, Copy)]
struct Kept<'a> {
    range: ScalarRange,
    expr: &'a Expr,
}

/// The address in one slot so many words further, into another.
fn advanced(to: Slot, from: Slot, words: u32) -> Simple
    requires { words ≤ word_limit }
    ensures { result ≡ op.Advance to from (pos words) }
{
    Simple::Advance {
        to,
        from,
        by: words as i32,
    }
}

impl BodyContext<'_> {
    /// How many words an object of a type takes; one, where there is no type.
    fn words(&self, of: Option<TypeIn>) -> u32
        ensures words { result ≡ words_of (shape_named (text self.now) of) }
        ensures small { result ≤ word_limit }
    {
        match of {
            Some(of) => self.sizes.words(of),
            None => 1,
        }
    }

    /// The type of the components of an array; none for what is no array.
    fn components(&self, of: Option<TypeIn>) -> Option<TypeIn>
        ensures { (k j : ℕ) (v : tree.NewValue)
            → others_with self.now k j (words_of (shape_named (text self.now) of)) result v
            ≡ others_for self.now k j (shape_named (text self.now) of) v }
    {
        match self.sizes.form(of?) {
            TypeForm::Array(_, component) => Some(component),
            _ => None,
        }
    }
}

/// Whether `(others => ..)` stands round a value.
fn goes_in(indices: &[ScalarRange]) -> bool
    ensures { result ≡ is_filled indices.now }
{
    !indices.is_empty()
}

/// Puts behind code what goes on to the next component: a value round which `(others => ..)` stands has
/// left its address already.
fn put_next(
    code: &mut Code,
    address: Slot,
    words: u32,
    inner: &[ScalarRange],
) -> Result<(), AllocError>
    requires { words ≤ word_limit }
    ensures { OnOk result ((s : Shape) (v : Setting) → words ≡ words_of s
        → code.new ≡ joined code.old (next_code address s (others_of inner.now (setting_of v)))) }
{
    if goes_in(inner) {
        return Ok(());
    }
    code.push_simple(advanced(address, address, words))
}

/// Puts behind code what sets the object of a type, whose address a slot holds, to a value; the slots
/// from another one on are free for that.
fn put_setting(
    alloc: Global,
    context: &BodyContext,
    code: &mut Code,
    address: Slot,
    free: Slot,
    of: Option<TypeIn>,
    setting: Setting,
) -> Result<(), AllocError>
    ensures { OnOk result (code.new ≡ joined code.old
        (set_for context.now address free (shape_named (text context.now) of) (setting_of setting.entry))) }
{
    match setting {
        Setting::Scalar(range, expr) => {
            put_value(alloc, context, code, free, expr)?;
            code.push_simple(within(free, context.bounds(range)))?;
            code.push_simple(Simple::Store {
                address,
                from: free,
            })
        }
        Setting::Composite(_, _, object, selectors) => {
            put_located(alloc, context, code, free, object, selectors)?;
            code.push_simple(Simple::Copy {
                to: address,
                from: free,
                words: context.words(of),
            })
        }
    }
}

/// Code of one turn of what sets components one after another: it leaves the loop behind the last one,
/// and else sets one and goes on to the next.
fn turn(alloc: Global, next: Slot, end: Slot, component: Code) -> Result<Code, AllocError>
    ensures { IfOk result (λ code. code ≡ turn_code next end component) }
{
    let behind = number_behind(end)?;
    let mut leaves = Code::new(alloc);
    leaves.push(Op::Exit)?;
    let mut code = Code::new(alloc);
    code.push_simple(Simple::Compare {
        relation: Relation::Equal,
        to: behind,
        left: next,
        right: end,
    })?;
    code.push(Op::Choose {
        slot: behind,
        if_true: leaves,
        if_false: component,
    })?;
    Ok(code)
}

/// Puts the same behind code for a value round which `(others => ..)` stands so many times.
#[cycle(settings)]
fn put_set(
    alloc: Global,
    context: &BodyContext,
    code: &mut Code,
    address: Slot,
    free: Slot,
    of: Option<TypeIn>,
    indices: &[ScalarRange],
    setting: Setting,
) -> Result<(), AllocError>
    ensures { OnOk result (code.new ≡ joined code.old
        (set_for context.now address free (shape_named (text context.now) of)
        (others_of indices.now (setting_of setting.entry)))) }
{
    match indices.split_first() {
        None => put_setting(alloc, context, code, address, free, of, setting),
        Some((_, inner)) => { put_others(alloc, context, code, address, free, of, inner, setting) }
    }
}

/// Puts behind code what sets each component of an array to a value, in rising order, where the value is
/// worked out and checked for each (RM 4.3.3).
#[cycle(settings)]
fn put_others(
    alloc: Global,
    context: &BodyContext,
    code: &mut Code,
    address: Slot,
    free: Slot,
    of: Option<TypeIn>,
    inner: &[ScalarRange],
    setting: Setting,
) -> Result<(), AllocError>
    ensures { OnOk result (code.new ≡ joined code.old
        (others_for context.now address free (shape_named (text context.now) of)
        (others_of inner.now (setting_of setting.entry)))) }
{
    let Some(component) = context.components(of) else {
        return Ok(());
    };
    let behind = number_behind(free)?;
    let mut one = Code::new(alloc);
    put_set(
        alloc,
        context,
        &mut one,
        address,
        behind,
        Some(component),
        inner,
        setting,
    )?;
    put_next(&mut one, address, context.words(Some(component)), inner)?;
    code.push_simple(advanced(free, address, context.words(of)))?;
    let turn = turn(alloc, address, free, one)?;
    code.push(Op::ForLoop(turn))
}

/// Puts behind code what sets the object of a type, whose address a slot holds, to a value; the slots
/// from another one on are free for that.
fn put_new_value(
    alloc: Global,
    context: &BodyContext,
    code: &mut Code,
    address: Slot,
    free: Slot,
    of: Option<TypeIn>,
    value: &NewValue,
) -> Result<(), AllocError>
    ensures { OnOk result (code.new ≡ joined code.old
        (set_for context.now address free (shape_named (text context.now) of) (value_of value.now))) }
{
    match value {
        NewValue::Scalar(range, expr) => {
            let setting = Setting::Scalar(*range, expr);
            put_setting(alloc, context, code, address, free, of, setting)
        }
        NewValue::Composite(owner, number, object, selectors) => {
            let setting = Setting::Composite(*owner, *number, *object, selectors);
            put_setting(alloc, context, code, address, free, of, setting)
        }
        NewValue::OthersScalar(indices, range, expr) => {
            let inner = indices.inner.as_slice();
            let setting = Setting::Scalar(*range, expr);
            put_others(alloc, context, code, address, free, of, inner, setting)
        }
        NewValue::OthersComposite(indices, owner, number, object, selectors) => {
            let inner = indices.inner.as_slice();
            let setting = Setting::Composite(*owner, *number, *object, selectors);
            put_others(alloc, context, code, address, free, of, inner, setting)
        }
    }
}

/// What a scalar object is set to that is no part of another.
fn kept_in<'a>(selectors: &[Selector], value: &'a NewValue) -> Option<Kept<'a>>
    ensures some { IfSome result (λ k. (parts_of selectors.now ≡ tree.whole) × (value_of value.now ≡ kept_of k)) }
    ensures none { IfNone result ((c : BodyContext) (k : ℕ) (o : tree.Object)
        → assign_for c k o (parts_of selectors.now) (value_of value.now)
        ≡ assign_at_for c k o (parts_of selectors.now) (value_of value.now)) }
{
    match value {
        NewValue::Scalar(range, expr) if !has_parts(selectors) => Some(Kept {
            range: *range,
            expr,
        }),
        _ => None,
    }
}

/// Puts behind code what sets a scalar object to the value of an expression, which its subtype has to
/// have (RM 5.2).
fn put_kept(
    alloc: Global,
    context: &BodyContext,
    code: &mut Code,
    slot: Slot,
    object: Object,
    kept: Kept,
) -> Result<(), AllocError>
    ensures { OnOk result (code.new
        ≡ joined code.old (assign_for context.now slot (object_of object) tree.whole (kept_of kept.entry))) }
{
    put_value(alloc, context, code, slot, kept.expr)?;
    code.push_simple(within(slot, context.bounds(kept.range)))?;
    code.push_simple(context.home(object).keep(slot))
}

/// Puts behind code what sets an object, or a part of one, to a value; the slots from one on are free for
/// that.
pub(crate) fn put_assignment(
    alloc: Global,
    context: &BodyContext,
    code: &mut Code,
    slot: Slot,
    object: Object,
    selectors: &[Selector],
    value: &NewValue,
) -> Result<(), AllocError>
    ensures { OnOk result (code.new ≡ joined code.old
        (assign_for context.now slot (object_of object) (parts_of selectors.now) (value_of value.now))) }
{
    if let Some(kept) = kept_in(selectors, value) {
        return put_kept(alloc, context, code, slot, object, kept);
    }
    put_located(alloc, context, code, slot, object, selectors)?;
    let of = part_of(context, context.type_of(object), selectors);
    let free = number_behind(slot)?;
    put_new_value(alloc, context, code, slot, free, of, value)
}
