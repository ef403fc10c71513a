//! Edges of the nodes of a decision.

ghost use Rattle.std.specs.Prelude.{◌≡◌, ◌+◌, IfOk};
ghost use Rattle.ada_meaning.specs.Tree as tree;
ghost use Rattle.ada_tree.specs.View.{neutral_of};
ghost use Rattle.lower.specs.Forms.{conditions_in, true_before, false_before};
ghost use Rattle.statement_code.specs.Values.{past};

use ada_tree::{ShortCircuit, Test, TestKind};
use cov_base::number_after;
use kernel_ir::Edge;
use std::alloc::AllocError;

/// Where the edges of a test lead, from the last of its nodes.
#[derive(Clone, Copy)]
pub(crate) struct Edges {
    pub on_true: Edge,
    pub on_false: Edge,
}

/// The edges of a whole decision, which lead to its outcomes.
pub(crate) const OUTCOMES: Edges = Edges {
    on_true: Edge::Leaf(true),
    on_false: Edge::Leaf(false),
};

/// How many conditions a test has.
#[cycle(conditions)]
fn conditions_of(test: &Test) -> Result<u32, AllocError>
    ensures { IfOk result (λ n. n ≡ tree.conditions_of test.now) }
{
    match &test.kind {
        TestKind::Condition(..) => Ok(1),
        TestKind::Negation(operand) => conditions_of(operand),
        TestKind::ShortCircuit(_, first, others) => {
            number_after(conditions_of(first)?, conditions_in(others)?)
        }
    }
}

/// How many conditions tests have.
#[cycle(conditions)]
fn conditions_in(tests: &[Test]) -> Result<u32, AllocError>
    ensures { IfOk result (λ n. n ≡ conditions_in tests.now) }
{
    let mut count = 0;
    for test in tests {
        count = number_after(count, conditions_of(test)?)?;
    }
    Ok(count)
}

/// An edge that leads past so many more nodes.
fn past(conditions: u32, edge: Edge) -> Result<Edge, AllocError>
    ensures { IfOk result (λ e. e ≡ past conditions edge) }
{
    match edge {
        Edge::Leaf(outcome) => Ok(Edge::Leaf(outcome)),
        Edge::NodeAfter(skipped) => Ok(Edge::NodeAfter(number_after(conditions, skipped)?)),
    }
}

/// The edges of an operand of a short-circuit control form, of those of the whole form, where these
/// operands stand right of it: its neutral value leads to the next one, the other value past all of
/// them (RM 4.5.1).
pub(crate) fn edges_before(
    form: ShortCircuit,
    right: &[Test],
    edges: Edges,
) -> Result<Edges, AllocError>
    ensures on_true { IfOk result (λ e. e.on_true ≡ true_before (neutral_of form) right.now edges.on_true) }
    ensures on_false { IfOk result (λ e. e.on_false ≡ false_before (neutral_of form) right.now edges.on_false) }
{
    if right.is_empty() {
        return Ok(edges);
    }
    let conditions = conditions_in(right)?;
    match form {
        ShortCircuit::AndThen => Ok(Edges {
            on_true: Edge::NodeAfter(0),
            on_false: past(conditions, edges.on_false)?,
        }),
        ShortCircuit::OrElse => Ok(Edges {
            on_true: past(conditions, edges.on_true)?,
            on_false: Edge::NodeAfter(0),
        }),
    }
}
