//! Code of decisions (Ada RM 2012, 4.5.1).

ghost use Rattle.std.specs.Prelude.{◌≡◌, OnOk};
ghost use Rattle.ada_tree.specs.View.{label_of, neutral_of};
ghost use Rattle.kernel_ir.specs.Sequence.{joined};
ghost use Rattle.kernel_ir.specs.Tree.{Nodes};
ghost use Rattle.statement_code.specs.Values.{single};
ghost use Rattle.lower.specs.Forms.{with_nodes};
ghost use Rattle.lower.specs.Pieces.{decide_for, nodes_for, operand_nodes_for};

use crate::context::BodyContext;
use crate::edges::{Edges, OUTCOMES, edges_before};
use crate::value::put_value;
use ada_tree::{Label, ShortCircuit, Test, TestKind};
use cov_base::{DecId, InstId};
use kernel_ir::{Code, Node, Op, Slot};
use std::alloc::{AllocError, Global};

/// Puts the nodes of a test behind others, where its edges lead there from its last node: `not`
/// exchanges them (RM 4.5.6). Each condition is worked out in the slots from `slot` on.
#[cycle(evaluation)]
fn put_nodes(
    alloc: Global,
    context: &BodyContext,
    nodes: &mut Vec<Node>,
    slot: Slot,
    test: &Test,
    edges: Edges,
) -> Result<(), AllocError>
    ensures { OnOk result ((rest : Nodes) → with_nodes nodes.new.items rest
        ≡ with_nodes nodes.old.items
        (nodes_for context.now slot test.now edges.on_true edges.on_false rest)) }
{
    match &test.kind {
        TestKind::Condition(_, expr) => {
            let mut operand = Code::new(alloc);
            put_value(alloc, context, &mut operand, slot, expr)?;
            nodes.push(Node {
                operand,
                slot,
                on_true: edges.on_true,
                on_false: edges.on_false,
            })?;
            Ok(())
        }
        TestKind::Negation(operand) => {
            let exchanged = Edges {
                on_true: edges.on_false,
                on_false: edges.on_true,
            };
            put_nodes(alloc, context, nodes, slot, operand, exchanged)
        }
        TestKind::ShortCircuit(form, first, others) => {
            let left = edges_before(*form, others, edges)?;
            put_nodes(alloc, context, nodes, slot, first, left)?;
            put_operand_nodes(alloc, context, nodes, slot, *form, others, edges)
        }
    }
}

/// Puts the nodes of the operands of a short-circuit control form that stand right of its first one
/// behind others, where the edges of the whole form lead there from the last node.
#[cycle(evaluation)]
fn put_operand_nodes(
    alloc: Global,
    context: &BodyContext,
    nodes: &mut Vec<Node>,
    slot: Slot,
    form: ShortCircuit,
    operands: &[Test],
    edges: Edges,
) -> Result<(), AllocError>
    ensures { OnOk result ((rest : Nodes) → with_nodes nodes.new.items rest
        ≡ with_nodes nodes.old.items (operand_nodes_for context.now slot
        (neutral_of form) operands.now edges.on_true edges.on_false rest)) }
{
    let mut left = operands;
    while let Some((operand, right)) = left.split_first() {
        let own = edges_before(form, right, edges)?;
        put_nodes(alloc, context, nodes, slot, operand, own)?;
        left = right;
    }
    Ok(())
}

/// Puts the evaluation of a decision behind code, into a slot.
#[cycle(evaluation)]
pub(crate) fn put_decision(
    alloc: Global,
    context: &BodyContext,
    code: &mut Code,
    slot: Slot,
    label: Label,
    test: &Test,
) -> Result<(), AllocError>
    ensures { OnOk result (code.new
        ≡ joined code.old (single (decide_for context.now slot (label_of label) test.now))) }
{
    let mut nodes = Vec::new(alloc);
    put_nodes(alloc, context, &mut nodes, slot, test, OUTCOMES)?;
    code.push(Op::Decide {
        decision: DecId(label.number),
        instance: InstId(context.instance),
        slot,
        nodes,
    })
}
