//! Where the parts of structured code stand, by how many lines they have.

ghost use Rattle.std.specs.Prelude.{◌≡◌, ◌+◌, IfOk};
ghost use Rattle.kernel_ir.specs.TreeView.{nodes_of};
ghost use Rattle.kernel_code.specs.Code.{code_length, nodes_length, edge_place};

use crate::lengths::{behind, code_length, nodes_length};
use crate::parts::edge_place;
use crate::targets::Evaluation;
use cov_base::{number_after, number_behind};
use kernel_ir::{Code, Node};
use std::alloc::AllocError;

/// Where the two codes of a choice stand, and what is behind both.
#[derive(Clone, Copy)]
pub(crate) struct ChoicePlaces {
    pub(crate) inside: u32,
    pub(crate) otherwise: u32,
    pub(crate) past: u32,
}

/// The places of a choice that stands at a place.
pub(crate) fn choice_places(
    place: u32,
    if_true: &Code,
    if_false: &Code,
) -> Result<ChoicePlaces, AllocError>
    ensures inside { IfOk result (λ at. at.inside ≡ place + 6) }
    ensures otherwise { IfOk result (λ at. at.otherwise ≡ place + 7 + code_length if_true.now) }
    ensures past { IfOk result (λ at. at.past ≡ place + 7 + code_length if_true.now + code_length if_false.now) }
{
    let test_end = number_after(place, 7)?;
    let otherwise = behind(test_end, code_length(if_true))?;
    let past = behind(otherwise, code_length(if_false))?;
    let inside = test_end - 1;
    Ok(ChoicePlaces {
        inside,
        otherwise,
        past,
    })
}

/// Where exceptions of guarded code lead, where its handler stands, and what is behind both.
#[derive(Clone, Copy)]
pub(crate) struct HandlerPlaces {
    pub(crate) caught: u32,
    pub(crate) handled: u32,
    pub(crate) past: u32,
}

/// The places of code with a handler that stands at a place.
pub(crate) fn handler_places(
    place: u32,
    body: &Code,
    handler: &Code,
) -> Result<HandlerPlaces, AllocError>
    ensures caught { IfOk result (λ at. at.caught ≡ place + code_length body.now + 1) }
    ensures handled { IfOk result (λ at. at.handled ≡ place + code_length body.now + 4) }
    ensures past { IfOk result (λ at. at.past ≡ place + code_length body.now + 4 + code_length handler.now) }
{
    let end = behind(place, code_length(body))?;
    let handled = number_after(end, 4)?;
    let past = behind(handled, code_length(handler))?;
    let caught = handled - 3;
    Ok(HandlerPlaces {
        caught,
        handled,
        past,
    })
}

/// The place behind a loop that stands at a place, and behind its jump back.
pub(crate) fn behind_loop(place: u32, body: &Code) -> Result<u32, AllocError>
    ensures { IfOk result (λ past. past ≡ place + code_length body.now + 1) }
{
    let end = behind(place, code_length(body))?;
    number_behind(end)
}

/// Where the outcomes of a decision lead, and what is behind it.
#[derive(Clone, Copy)]
pub(crate) struct OutcomePlaces {
    pub(crate) true_at: u32,
    pub(crate) false_at: u32,
    pub(crate) past: u32,
}

/// The places of a decision that stands at a place.
pub(crate) fn outcome_places(place: u32, nodes: &[Node]) -> Result<OutcomePlaces, AllocError>
    ensures true_at { IfOk result (λ at. at.true_at ≡ place + nodes_length (nodes_of nodes.now)) }
    ensures false_at { IfOk result (λ at. at.false_at ≡ place + nodes_length (nodes_of nodes.now) + 5) }
    ensures past { IfOk result (λ at. at.past ≡ place + nodes_length (nodes_of nodes.now) + 9) }
{
    let true_at = behind(place, nodes_length(nodes))?;
    let past = number_after(true_at, 9)?;
    let false_at = past - 4;
    Ok(OutcomePlaces {
        true_at,
        false_at,
        past,
    })
}

/// Where a node's branch leads where it is taken and where not, and where the next node stands.
#[derive(Clone, Copy)]
pub(crate) struct NodePlaces {
    pub(crate) taken: u32,
    pub(crate) next: u32,
    pub(crate) on_true: u32,
    pub(crate) on_false: u32,
}

/// The places of a node that stands at a place, before others.
pub(crate) fn node_places(
    evaluation: Evaluation,
    place: u32,
    node: &Node,
    following: &[Node],
) -> Result<NodePlaces, AllocError>
    ensures taken { IfOk result (λ at. at.taken ≡ place + code_length node.now.operand + 7) }
    ensures next { IfOk result (λ at. at.next ≡ place + code_length node.now.operand + 8) }
    ensures on_true { IfOk result (λ at. at.on_true
        ≡ edge_place evaluation.true_at evaluation.false_at (nodes_of following.now) at.next node.now.on_true) }
    ensures on_false { IfOk result (λ at. at.on_false
        ≡ edge_place evaluation.true_at evaluation.false_at (nodes_of following.now) at.next node.now.on_false) }
{
    let end = behind(place, code_length(&node.operand))?;
    let next = number_after(end, 8)?;
    let on_true = edge_place(evaluation, following, next, node.on_true)?;
    let on_false = edge_place(evaluation, following, next, node.on_false)?;
    let taken = next - 1;
    Ok(NodePlaces {
        taken,
        next,
        on_true,
        on_false,
    })
}
