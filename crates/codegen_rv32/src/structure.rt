//! Structured code: operations in order, and operations that hold code.

ghost use Rattle.std.specs.Prelude.{◌≡◌, ◌+◌, ◌++◌, IfOk, OnOk};
ghost use Rattle.kernel_ir.specs.Tree as tree;
ghost use Rattle.kernel_ir.specs.TreeView.{op_of, ops_of, nodes_of};
ghost use Rattle.kernel_code.specs.Code.{op_lines, code_lines, nodes_lines, body_lines};
ghost use Rattle.kernel_code.specs.Set.{setting_of};
ghost use Rattle.codegen_rv32.specs.Set.{targets_of};

use crate::lengths::{behind, code_length, op_length};
use crate::parts::{
    enter_body, enter_handler, leave_body, put_call, put_condition, put_test, set_outcome,
};
use crate::places::{behind_loop, choice_places, handler_places, node_places, outcome_places};
use crate::targets::{Evaluation, Targets};
use cov_base::{DecId, InstId, byte_behind, number_after};
use kernel_code::{Emitter, Frame};
use kernel_ir::{Code, Node, Op, Slot};
use std::alloc::AllocError;

/// Code, of which the first line stands at a place.
#[cycle(structure)]
fn put_code(
    emitter: &mut Emitter,
    frame: &Frame<'_>,
    targets: Targets,
    place: u32,
    code: &Code,
) -> Result<(), AllocError>
    ensures { OnOk result (emitter.new ≡ emitter.old ++ code_lines (setting_of frame.now) (targets_of targets) place code.now) }
{
    put_operations(emitter, frame, targets, place, &code.ops)
}

#[cycle(structure)]
fn put_operations(
    emitter: &mut Emitter,
    frame: &Frame<'_>,
    targets: Targets,
    place: u32,
    ops: &[Op],
) -> Result<(), AllocError>
    ensures { OnOk result (emitter.new ≡ emitter.old ++ code_lines (setting_of frame.now) (targets_of targets) place (ops_of ops.now)) }
{
    let mut at = place;
    for op in ops {
        put_operation(emitter, frame, targets, at, op)?;
        at = behind(at, op_length(op))?;
    }
    Ok(())
}

#[cycle(structure)]
fn put_operation(
    emitter: &mut Emitter,
    frame: &Frame<'_>,
    targets: Targets,
    place: u32,
    op: &Op,
) -> Result<(), AllocError>
    ensures { OnOk result (emitter.new ≡ emitter.old ++ op_lines (setting_of frame.now) (targets_of targets) place (op_of op.now)) }
{
    match op {
        Op::Simple(simple) => emitter.simple(frame, targets.raise_to, place, *simple),
        Op::Choose {
            slot,
            if_true,
            if_false,
        } => put_choose(emitter, frame, targets, place, *slot, if_true, if_false),
        Op::Forever(body) | Op::ForLoop(body) => put_repeat(emitter, frame, targets, place, body),
        Op::Exit => emitter.jump(targets.exit_to),
        Op::Returns => emitter.jump(targets.return_to),
        Op::Catch {
            body,
            slot,
            handler,
        } => put_catch(emitter, frame, targets, place, body, *slot, handler),
        Op::Decide {
            decision,
            instance,
            slot,
            nodes,
        } => put_decide(
            emitter, frame, targets, place, *decision, *instance, *slot, nodes,
        ),
        Op::Call { body } => put_call(emitter, frame, targets.raise_to, place, *body),
    }
}

/// One code or another.
#[cycle(structure)]
fn put_choose(
    emitter: &mut Emitter,
    frame: &Frame<'_>,
    targets: Targets,
    place: u32,
    slot: Slot,
    if_true: &Code,
    if_false: &Code,
) -> Result<(), AllocError>
    ensures { OnOk result (emitter.new ≡ emitter.old ++ op_lines (setting_of frame.now) (targets_of targets) place
        (tree.choose slot if_true.now if_false.now)) }
{
    let at = choice_places(place, if_true, if_false)?;
    put_test(emitter, slot, at.inside, at.otherwise)?;
    put_code(emitter, frame, targets, at.inside, if_true)?;
    emitter.jump(at.past)?;
    put_code(emitter, frame, targets, at.otherwise, if_false)
}

/// A loop.
#[cycle(structure)]
fn put_repeat(
    emitter: &mut Emitter,
    frame: &Frame<'_>,
    targets: Targets,
    place: u32,
    body: &Code,
) -> Result<(), AllocError>
    ensures { OnOk result (emitter.new ≡ emitter.old ++ op_lines (setting_of frame.now) (targets_of targets) place
        (tree.forever body.now)) }
{
    let past = behind_loop(place, body)?;
    let inside = Targets {
        raise_to: targets.raise_to,
        exit_to: past,
        return_to: targets.return_to,
    };
    put_code(emitter, frame, inside, place, body)?;
    emitter.jump(place)
}

/// Code with a handler for its exceptions.
#[cycle(structure)]
fn put_catch(
    emitter: &mut Emitter,
    frame: &Frame<'_>,
    targets: Targets,
    place: u32,
    body: &Code,
    slot: Slot,
    handler: &Code,
) -> Result<(), AllocError>
    ensures { OnOk result (emitter.new ≡ emitter.old ++ op_lines (setting_of frame.now) (targets_of targets) place
        (tree.catch body.now slot handler.now)) }
{
    let at = handler_places(place, body, handler)?;
    let guarded = Targets {
        raise_to: at.caught,
        exit_to: targets.exit_to,
        return_to: targets.return_to,
    };
    put_code(emitter, frame, guarded, place, body)?;
    enter_handler(emitter, at.past, slot)?;
    put_code(emitter, frame, targets, at.handled, handler)
}

/// The evaluation of a decision.
#[cycle(structure)]
fn put_decide(
    emitter: &mut Emitter,
    frame: &Frame<'_>,
    targets: Targets,
    place: u32,
    decision: DecId,
    instance: InstId,
    slot: Slot,
    nodes: &[Node],
) -> Result<(), AllocError>
    ensures { OnOk result (emitter.new ≡ emitter.old ++ op_lines (setting_of frame.now) (targets_of targets) place
        (tree.decide decision instance slot (nodes_of nodes.now))) }
{
    let at = outcome_places(place, nodes)?;
    let evaluation = Evaluation {
        decision,
        instance,
        true_at: at.true_at,
        false_at: at.false_at,
    };
    put_nodes(emitter, frame, targets, evaluation, 0, place, nodes)?;
    set_outcome(emitter, slot, at.past)
}

/// The nodes of a decision, of which the first one has a number.
#[cycle(structure)]
fn put_nodes(
    emitter: &mut Emitter,
    frame: &Frame<'_>,
    targets: Targets,
    evaluation: Evaluation,
    number: u8,
    place: u32,
    nodes: &[Node],
) -> Result<(), AllocError>
    ensures { OnOk result (emitter.new ≡ emitter.old ++ nodes_lines (setting_of frame.now)
        (targets_of targets) evaluation.true_at evaluation.false_at evaluation.decision evaluation.instance number place
        (nodes_of nodes.now)) }
{
    let Some((node, following)) = nodes.split_first() else {
        return Ok(());
    };
    let at = node_places(evaluation, place, node, following)?;
    let after = byte_behind(number)?;
    put_code(emitter, frame, targets, place, &node.operand)?;
    put_condition(
        emitter,
        evaluation,
        number,
        node.slot,
        at.taken,
        at.on_false,
        at.on_true,
    )?;
    put_nodes(
        emitter, frame, targets, evaluation, after, at.next, following,
    )
}

/// A body.
pub(crate) fn put_body(
    emitter: &mut Emitter,
    frame: &Frame<'_>,
    code: &Code,
) -> Result<(), AllocError>
    ensures { OnOk result (emitter.new ≡ emitter.old ++ body_lines (setting_of frame.now) code.now) }
{
    let length = code_length(code)?;
    let end = number_after(2, length)?;
    let raised = number_after(3, length)?;
    let targets = Targets {
        raise_to: raised,
        exit_to: end,
        return_to: end,
    };
    enter_body(emitter)?;
    put_code(emitter, frame, targets, 2, code)?;
    leave_body(emitter)
}
