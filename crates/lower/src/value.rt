//! Code of expressions (Ada RM 2012, 4.4 to 4.6).

ghost use Rattle.std.specs.Prelude.{◌≡◌, OnOk};
ghost use Rattle.ada_meaning.specs.Tree as tree;
ghost use Rattle.ada_tree.specs.View.{relation_of, static_of};
ghost use Rattle.kernel_ir.specs.Sequence.{joined};
ghost use Rattle.kernel_ir.specs.declared.simple.Simple.TheVariants as op;
ghost use Rattle.statement_code.specs.Values.{one};
ghost use Rattle.lower.specs.Context.{names_for};
ghost use Rattle.lower.specs.Pieces.{expr_for, operands_for};

use crate::calls::put_call;
use crate::context::BodyContext;
use crate::expressions::{operator_for, relation_for, sign_on, within};
use crate::nodes::put_decision;
use crate::parts::{has_parts, put_located};
use ada_tree::{Expr, ExprKind, Operand, Relation, Static};
use cov_base::number_behind;
use kernel_ir::{Code, Simple, Slot};
use std::alloc::{AllocError, Global};

/// Puts a number behind code, into a slot.
pub(crate) fn put_number(code: &mut Code, to: Slot, value: i32) -> Result<(), AllocError>
    ensures { OnOk result (code.new ≡ joined code.old (one (op.Number to value))) }
{
    code.push_simple(Simple::Number { to, value })
}

/// Puts the value of a static expression behind code, into a slot (RM 4.9).
pub(crate) fn put_static(
    context: &BodyContext,
    code: &mut Code,
    to: Slot,
    value: Static,
) -> Result<(), AllocError>
    ensures { OnOk result (code.new
        ≡ joined code.old (one (op.Number to ((names_for context.now).number (static_of value))))) }
{
    put_number(code, to, context.number(value))
}

/// Puts the value of an expression behind code, into a slot.
#[cycle(evaluation)]
pub(crate) fn put_value(
    alloc: Global,
    context: &BodyContext,
    code: &mut Code,
    to: Slot,
    expr: &Expr,
) -> Result<(), AllocError>
    ensures { OnOk result (code.new ≡ joined code.old (expr_for context.now to expr.now)) }
{
    match &expr.kind {
        ExprKind::Literal(value) => put_number(code, to, *value),
        ExprKind::Constant(value) => put_static(context, code, to, *value),
        ExprKind::Read(object) => code.push_simple(context.home(*object).fetch(to)),
        ExprKind::Part(object, selectors) => {
            if !has_parts(selectors) {
                return code.push_simple(context.home(*object).fetch(to));
            }
            put_located(alloc, context, code, to, *object, selectors)?;
            code.push_simple(Simple::Load { to, address: to })
        }
        ExprKind::Attribute(object, selectors, value) => {
            put_located(alloc, context, code, to, *object, selectors)?;
            put_static(context, code, to, *value)
        }
        ExprKind::Signed(sign, operand) => {
            put_value(alloc, context, code, to, operand)?;
            code.push_simple(sign_on(to, *sign))
        }
        ExprKind::Operations(first, others) => {
            put_value(alloc, context, code, to, first)?;
            put_operands(alloc, context, code, to, others)
        }
        ExprKind::Relation(relation, left, right) => {
            put_relation(alloc, context, code, to, *relation, left, right)
        }
        ExprKind::Complement(operand) => {
            put_value(alloc, context, code, to, operand)?;
            code.push_simple(Simple::Complement { to, from: to })
        }
        ExprKind::Conversion(range, operand) => {
            put_value(alloc, context, code, to, operand)?;
            code.push_simple(within(to, context.bounds(*range)))
        }
        ExprKind::Call(callee, actuals) => {
            put_call(alloc, context, code, to, context.target(*callee), actuals)?;
            code.push_simple(Simple::Move {
                to,
                from: context.width,
            })
        }
        ExprKind::Decision(label, test) => put_decision(alloc, context, code, to, *label, test),
    }
}

/// Puts a relation of two values behind code, into a slot (RM 4.5.2).
#[cycle(evaluation)]
fn put_relation(
    alloc: Global,
    context: &BodyContext,
    code: &mut Code,
    to: Slot,
    relation: Relation,
    left: &Expr,
    right: &Expr,
) -> Result<(), AllocError>
    ensures { OnOk result (code.new ≡ joined code.old
        (expr_for context.now to (tree.relation (relation_of relation) left.now right.now))) }
{
    put_value(alloc, context, code, to, left)?;
    let behind = number_behind(to)?;
    put_value(alloc, context, code, behind, right)?;
    code.push_simple(Simple::Compare {
        relation: relation_for(relation),
        to,
        left: to,
        right: behind,
    })
}

/// Puts operators with their right operands behind code, from the left, where a slot holds what stands
/// left of them (RM 4.5.3, 4.5.5).
#[cycle(evaluation)]
fn put_operands(
    alloc: Global,
    context: &BodyContext,
    code: &mut Code,
    to: Slot,
    operands: &[Operand],
) -> Result<(), AllocError>
    ensures { OnOk result (code.new ≡ joined code.old (operands_for context.now to operands.now)) }
{
    let right = number_behind(to)?;
    for operand in operands {
        put_value(alloc, context, code, right, &operand.operand)?;
        code.push_simple(Simple::Arithmetic {
            operator: operator_for(operand.operator),
            to,
            left: to,
            right,
        })?;
    }
    Ok(())
}
