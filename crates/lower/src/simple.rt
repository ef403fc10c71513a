//! Code of declarations and of simple statements (Ada RM 2012, 3.3.1, 5.1).

ghost use Rattle.std.specs.Prelude.{◌≡◌, ℕ, map, option_map, IfOk, OnOk};
ghost use Rattle.ada_meaning.specs.Tree as tree;
ghost use Rattle.ada_tree.specs.View.{declaration_of, exception_of, label_of, scalar_range_of};
ghost use Rattle.ada_tree.specs.Programs.{bounds_of};
ghost use Rattle.kernel_ir.specs.Sequence.{joined};
ghost use Rattle.kernel_ir.specs.Tree.{exit, no_op, returns, simple, and_op};
ghost use Rattle.kernel_ir.specs.declared.simple.Simple.TheVariants as op;
ghost use Rattle.statement_code.specs.Values.{one, single, within, Home};
ghost use Rattle.lower.specs.Choosing.{decided_for};
ghost use Rattle.lower.specs.Context.{names_for, shape_for};
ghost use Rattle.lower.specs.Pieces.{expr_for};
ghost use Rattle.lower.specs.Stated.{declaration_for, declarations_for, first_by, first_for, first_of, start_for};

use crate::choosing::{first_number, put_decided};
use crate::context::{BASE, BodyContext};
use crate::expressions::within;
use crate::sets::put_assignment;
use crate::value::put_value;
use ada_resolved::TypeForm;
use ada_tree::{Decision, Declaration, ExceptionName, Expr, Label, Object, Range, ScalarRange};
use cov_base::{InstId, StmtId};
use kernel_ir::{Code, Op, Simple, Slot};
use std::alloc::{AllocError, Global};

/// Puts the start of a statement behind code: its row.
pub(crate) fn put_start(
    context: &BodyContext,
    code: &mut Code,
    label: Label,
) -> Result<(), AllocError>
    ensures { OnOk result (code.new ≡ joined code.old (start_for context.now (label_of label))) }
{
    code.push_simple(Simple::Start {
        statement: StmtId(label.number),
        instance: InstId(context.instance),
    })
}

impl BodyContext<'_> {
    /// The values of the subtype of an object of the subprogram; those of the base range for what is no
    /// object. None, where the object is an array or a record.
    fn scalar(&self, number: u32) -> Option<Range>
        ensures { (k layout : ℕ) (h : Home) → first_by k layout h (option_map bounds_of result)
            ≡ first_of self.now k layout h (shape_for self.now (tree.local_object number)) }
    {
        match self.type_of(Object::Local(number)) {
            None => Some(BASE),
            Some(of) => match self.sizes.form(of) {
                TypeForm::Scalar(range) => Some(range),
                TypeForm::Array(..) | TypeForm::Record(_) => None,
            },
        }
    }
}

/// Puts behind code what sets an object to its first value.
fn put_first(
    context: &BodyContext,
    code: &mut Code,
    slot: Slot,
    number: u32,
) -> Result<(), AllocError>
    ensures { OnOk result (code.new ≡ joined code.old (first_for context.now slot number)) }
{
    let home = context.home(Object::Local(number));
    match context.scalar(number) {
        Some(range) => {
            code.push_simple(first_number(slot, range))?;
            code.push_simple(home.keep(slot))
        }
        None => {
            code.push_simple(home.address(slot))?;
            let layout = context.layout(number)?;
            code.push_simple(Simple::Fill { at: slot, layout })
        }
    }
}

/// Puts a declaration behind code (RM 3.3.1).
fn put_declaration(
    alloc: Global,
    context: &BodyContext,
    code: &mut Code,
    slot: Slot,
    declaration: &Declaration,
) -> Result<(), AllocError>
    ensures { OnOk result (code.new
        ≡ joined code.old (declaration_for context.now slot (declaration_of declaration.now))) }
{
    match declaration {
        Declaration::Initialized(label, number, value) => {
            put_start(context, code, *label)?;
            put_assignment(
                alloc,
                context,
                code,
                slot,
                Object::Local(*number),
                &[],
                value,
            )
        }
        Declaration::WithoutValue(number, _) => put_first(context, code, slot, *number),
    }
}

/// Puts declarations behind code, in order.
pub(crate) fn put_declarations(
    alloc: Global,
    context: &BodyContext,
    code: &mut Code,
    slot: Slot,
    declarations: &[Declaration],
) -> Result<(), AllocError>
    ensures { OnOk result (code.new
        ≡ joined code.old (declarations_for context.now slot (map declaration_of declarations.now))) }
{
    for declaration in declarations {
        put_declaration(alloc, context, code, slot, declaration)?;
    }
    Ok(())
}

/// Code that leaves the innermost loop (RM 5.7).
pub(crate) fn leaving(alloc: Global) -> Result<Code, AllocError>
    ensures { IfOk result (λ code. code ≡ single exit) }
{
    let mut code = Code::new(alloc);
    code.push(Op::Exit)?;
    Ok(code)
}

/// Puts behind code what leaves the innermost loop where a decision is True (RM 5.7).
pub(crate) fn put_exit_when(
    alloc: Global,
    context: &BodyContext,
    code: &mut Code,
    slot: Slot,
    decision: &Decision,
) -> Result<(), AllocError>
    ensures { OnOk result (code.new ≡ joined code.old (decided_for context.now slot
        (label_of decision.now.label) decision.now.test (single exit) no_op)) }
{
    let leaves = leaving(alloc)?;
    put_decided(
        alloc,
        context,
        code,
        slot,
        decision,
        leaves,
        Code::new(alloc),
    )
}

/// Puts behind code what gives a function's result, which its subtype has to have (RM 6.5).
pub(crate) fn put_result(
    alloc: Global,
    context: &BodyContext,
    code: &mut Code,
    slot: Slot,
    range: ScalarRange,
    expr: &Expr,
) -> Result<(), AllocError>
    ensures { OnOk result (code.new ≡ joined code.old (joined (expr_for context.now slot expr.now)
        (and_op (simple (within slot ((names_for context.now).bounds (scalar_range_of range))))
        (and_op (simple (op.Move 0 slot)) (single returns))))) }
{
    put_value(alloc, context, code, slot, expr)?;
    code.push_simple(within(slot, context.bounds(range)))?;
    code.push_simple(Simple::Move { to: 0, from: slot })?;
    code.push(Op::Returns)
}

/// Puts behind code what raises an exception (RM 11.3).
pub(crate) fn put_raise(
    context: &BodyContext,
    code: &mut Code,
    name: ExceptionName,
) -> Result<(), AllocError>
    ensures { OnOk result (code.new
        ≡ joined code.old (one (op.Raise ((names_for context.now).exception (exception_of name))))) }
{
    let exception = context.exception(name)?;
    code.push_simple(Simple::Raise { exception })
}
