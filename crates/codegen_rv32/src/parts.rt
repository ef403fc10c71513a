//! Parts of structured code that hold no code.

ghost use Rattle.std.specs.Prelude.{◌≡◌, ◌+◌, ◌-◌, ◌*◌, ◌^◌, ◌<◌, ◌++◌, [], ◌∷◌, map, IfOk, OnOk};
ghost use Rattle.rv_isa.specs.declared.ops.UpperOp.TheVariants.{Lui};
ghost use Rattle.rv_isa.specs.declared.ops.BranchOp.TheVariants.{Beq, Bne};
ghost use Rattle.rv_isa.specs.declared.ops.ImmediateOp.TheVariants.{Addi, Sltiu};
ghost use Rattle.rv_isa.specs.declared.ops.RegisterOp.TheVariants as registers;
ghost use Rattle.rv_isa.specs.declared.ops.LoadOp.TheVariants.{Lw};
ghost use Rattle.rv_isa.specs.declared.ops.StoreOp.TheVariants.{Sw};
ghost use Rattle.rv_isa.specs.declared.instr.Instr.TheVariants.{Upper, Jalr, Load, Store, Immediate, Register, Ecall};
ghost use Rattle.kernel_ir.specs.TreeView.{nodes_of};
ghost use Rattle.kernel_code.specs.Line.{plain, jump, decides, checks, steers};
ghost use Rattle.kernel_code.specs.Words.{load_slot, store_slot, load_constant};
ghost use Rattle.kernel_code.specs.SimpleCode.{branch, call_piece};
ghost use Rattle.kernel_code.specs.Code.{load_truth, call_lines, start_lines, node_place, edge_place};
ghost use Rattle.kernel_code.specs.Set.{setting_of};

use crate::lengths::nodes_length;
use crate::targets::Evaluation;
use cov_base::{CondIx, number_after, number_behind};
use kernel_code::{
    Emitter, Frame, Said, a3, addi, back, exception, immediate, load, lui, register, store,
};
use kernel_ir::{Edge, Node, Slot};
use rv_isa::{BranchOp, ImmediateOp, Instr, Reg, RegisterOp};
use std::alloc::AllocError;

/// Where an edge leads: to the place of an outcome, or of one of the nodes that follow.
pub(crate) fn edge_place(
    evaluation: Evaluation,
    following: &[Node],
    place: u32,
    edge: Edge,
) -> Result<u32, AllocError>
    ensures { IfOk result (λ there. there ≡ edge_place evaluation.true_at evaluation.false_at (nodes_of following.now) place edge) }
{
    match edge {
        Edge::Leaf(true) => Ok(evaluation.true_at),
        Edge::Leaf(false) => Ok(evaluation.false_at),
        Edge::NodeAfter(skipped) => node_place(skipped, following, place),
    }
}

/// The place of the node behind so many others, of nodes from a place on.
#[tactic(auto, using(crate::proofs::Nodes::place_behind, crate::proofs::Nodes::place_at_end))]
fn node_place(skipped: u32, nodes: &[Node], place: u32) -> Result<u32, AllocError>
    ensures { IfOk result (λ there. there ≡ node_place skipped (nodes_of nodes.now) place) }
{
    match nodes.get(..skipped as usize) {
        Some(before) => number_after(place, nodes_length(before)?),
        None => number_after(place, nodes_length(nodes)?),
    }
}

/// How far the end of a frame moves for a call, as a word: below the words of the caller.
fn way_down(width: u32) -> u64
    ensures value { result ≡ 2 ^ 32 - 4 * width }
    ensures within { result < 2 ^ 36 }
{
    0x1_0000_0000_u64.saturating_sub(4 * u64::from(width))
}

/// How far it moves back.
fn way_up(width: u32) -> u64
    ensures value { result ≡ 4 * width }
    ensures within { result < 2 ^ 36 }
{
    4 * u64::from(width)
}

/// Goes on inside where a slot holds True, and else at another place.
#[tactic(auto, using(kernel_code::proofs::Lines::lines_assoc))]
pub(crate) fn put_test(
    emitter: &mut Emitter,
    slot: Slot,
    inside: u32,
    otherwise: u32,
) -> Result<(), AllocError>
    ensures { OnOk result (emitter.new ≡ emitter.old ++ (map plain (load_slot 11 slot (Immediate Addi 13 0 1 ∷ [])) ++
        (branch steers Beq 11 13 inside ∷ (jump otherwise ∷ [])))) }
{
    emitter.load_slot(Reg::a1(), slot)?;
    emitter.plain(addi(a3(), Reg::zero(), 1))?;
    emitter.branch(Said::Steers, BranchOp::Beq, Reg::a1(), a3(), inside)?;
    emitter.jump(otherwise)
}

/// Goes past a handler, which begins with setting a slot to the number of the exception.
#[tactic(auto, using(kernel_code::proofs::Lines::lines_assoc))]
pub(crate) fn enter_handler(emitter: &mut Emitter, past: u32, slot: Slot) -> Result<(), AllocError>
    ensures { OnOk result (emitter.new ≡ emitter.old ++ jump past ∷ map plain (store_slot 12 slot [])) }
{
    emitter.jump(past)?;
    emitter.store_slot(exception(), slot)
}

/// A slot gets a number below 2.
#[tactic(auto, using(kernel_code::proofs::Lines::lines_assoc))]
fn set_truth(emitter: &mut Emitter, slot: Slot, truth: u16) -> Result<(), AllocError>
    requires { truth < 2 ^ 12 }
    ensures { OnOk result (emitter.new ≡ emitter.old ++ map plain (Immediate Addi 10 0 truth ∷ store_slot 10 slot [])) }
{
    emitter.plain(addi(Reg::a0(), Reg::zero(), truth))?;
    emitter.store_slot(Reg::a0(), slot)
}

/// The ends of a decision: a slot gets 1 for True and 0 for False.
#[tactic(auto, using(kernel_code::proofs::Lines::lines_assoc))]
pub(crate) fn set_outcome(emitter: &mut Emitter, slot: Slot, past: u32) -> Result<(), AllocError>
    ensures { OnOk result (emitter.new ≡ emitter.old ++ (map plain (Immediate Addi 10 0 1 ∷ store_slot 10 slot []) ++
        (jump past ∷ map plain (Immediate Addi 10 0 0 ∷ store_slot 10 slot [])))) }
{
    set_truth(emitter, slot, 1)?;
    emitter.jump(past)?;
    set_truth(emitter, slot, 0)
}

/// `x10` is 1 where a slot holds True, and else 0.
#[tactic(auto, using(kernel_code::proofs::Lines::lines_assoc))]
fn load_truth(emitter: &mut Emitter, slot: Slot) -> Result<(), AllocError>
    ensures { OnOk result (emitter.new ≡ emitter.old ++ map plain (load_truth slot)) }
{
    let x = Reg::a0();
    emitter.load_slot(x, slot)?;
    emitter.straight(&[addi(x, x, 0xfff), immediate(ImmediateOp::Sltiu, x, x, 1)])
}

/// The branch of a condition, which is taken where the condition's slot holds True.
#[tactic(auto, using(kernel_code::proofs::Lines::lines_assoc))]
pub(crate) fn put_condition(
    emitter: &mut Emitter,
    evaluation: Evaluation,
    condition: u8,
    slot: Slot,
    taken_at: u32,
    on_false: u32,
    on_true: u32,
) -> Result<(), AllocError>
    ensures { OnOk result (emitter.new ≡ emitter.old ++ (map plain (load_truth slot) ++
        (branch (decides evaluation.decision condition evaluation.instance) Bne 10 0 taken_at ∷ (jump on_false ∷ (jump on_true ∷ []))))) }
{
    load_truth(emitter, slot)?;
    let said = Said::Decides {
        decision: evaluation.decision,
        condition: CondIx(condition),
        instance: evaluation.instance,
    };
    emitter.branch(said, BranchOp::Bne, Reg::a0(), Reg::zero(), taken_at)?;
    emitter.jump(on_false)?;
    emitter.jump(on_true)
}

/// The frame's end moves.
#[tactic(auto, using(kernel_code::proofs::Lines::lines_assoc))]
fn move_frame(emitter: &mut Emitter, bytes: u64) -> Result<(), AllocError>
    requires { bytes < 2 ^ 36 }
    ensures { OnOk result (emitter.new ≡ emitter.old ++ map plain (load_constant 13 bytes (Register registers.Add 8 8 13 ∷ []))) }
{
    emitter.load_constant(a3(), bytes)?;
    emitter.plain(register(RegisterOp::Add, Reg::fp(), Reg::fp(), a3()))
}

/// The check that one more call may nest.
#[tactic(auto, using(kernel_code::proofs::Lines::lines_assoc))]
fn check_depth(emitter: &mut Emitter, raise_to: u32, place: u32) -> Result<(), AllocError>
    ensures { OnOk result (emitter.new ≡ emitter.old ++ (map plain (Upper Lui 13 0x1fc0 ∷ Immediate Addi 12 0 3 ∷ []) ++
        (branch checks Bne 2 13 (place + 4) ∷ (jump raise_to ∷ [])))) }
{
    let lowest = a3();
    emitter.straight(&[lui(lowest, 0x1fc0), addi(exception(), Reg::zero(), 3)])?;
    emitter.check_past(raise_to, BranchOp::Bne, Reg::sp(), lowest, place, 4)
}

/// Goes on where no exception came back from a call, and else where exceptions lead.
#[tactic(auto, using(kernel_code::proofs::Lines::lines_assoc))]
fn hand_on(emitter: &mut Emitter, raise_to: u32, past: u32) -> Result<(), AllocError>
    ensures { OnOk result (emitter.new ≡ emitter.old ++ branch steers Beq 12 0 past ∷ (jump raise_to ∷ [])) }
{
    emitter.branch(Said::Steers, BranchOp::Beq, exception(), Reg::zero(), past)?;
    emitter.jump(raise_to)
}

/// A call of a body.
pub(crate) fn put_call(
    emitter: &mut Emitter,
    frame: &Frame<'_>,
    raise_to: u32,
    place: u32,
    body: u32,
) -> Result<(), AllocError>
    ensures { OnOk result (emitter.new ≡ emitter.old ++ call_lines (setting_of frame.now) raise_to place body) }
{
    let piece = number_behind(body)?;
    let past = number_after(place, 13)?;
    check_depth(emitter, raise_to, place)?;
    move_frame(emitter, way_down(frame.width))?;
    emitter.call_piece(piece)?;
    move_frame(emitter, way_up(frame.width))?;
    hand_on(emitter, raise_to, past)
}

/// The first lines of a body, which keep the address to come back to.
#[tactic(auto, using(kernel_code::proofs::Lines::lines_assoc))]
pub(crate) fn enter_body(emitter: &mut Emitter) -> Result<(), AllocError>
    ensures { OnOk result (emitter.new ≡ emitter.old ++ map plain (Immediate Addi 2 2 0xffc ∷ Store Sw 2 1 0 ∷ [])) }
{
    let sp = Reg::sp();
    emitter.straight(&[addi(sp, sp, 0xffc), store(sp, Reg::ra(), 0)])
}

/// The last lines of a body.
#[tactic(auto, using(kernel_code::proofs::Lines::lines_assoc))]
pub(crate) fn leave_body(emitter: &mut Emitter) -> Result<(), AllocError>
    ensures { OnOk result (emitter.new ≡ emitter.old ++ (map plain
        (Immediate Addi 12 0 0 ∷ Load Lw 1 2 0 ∷ Immediate Addi 2 2 4 ∷ []) ++ (plain (Jalr 0 1 0) ∷ []))) }
{
    let sp = Reg::sp();
    emitter.straight(&[
        addi(exception(), Reg::zero(), 0),
        load(Reg::ra(), sp, 0),
        addi(sp, sp, 4),
        back(),
    ])
}

/// Sets the frame and the return addresses of the first call.
#[tactic(auto, using(kernel_code::proofs::Lines::lines_assoc))]
fn enter_start(emitter: &mut Emitter) -> Result<(), AllocError>
    ensures { OnOk result (emitter.new ≡ emitter.old ++ map plain (Upper Lui 8 0x1fc0 ∷ load_constant 2 0x1fc0800 [])) }
{
    emitter.plain(lui(Reg::fp(), 0x1fc0))?;
    emitter.load_constant(Reg::sp(), 0x1fc0800)
}

/// Ends the run, with the number of the exception or 0.
#[tactic(auto, using(kernel_code::proofs::Lines::lines_assoc))]
fn end_run(emitter: &mut Emitter) -> Result<(), AllocError>
    ensures { OnOk result (emitter.new ≡ emitter.old ++ (map plain (Immediate Addi 10 12 0 ∷ Immediate Addi 17 0 3 ∷ []) ++ (plain Ecall ∷ []))) }
{
    emitter.straight(&[
        addi(Reg::a0(), exception(), 0),
        addi(Reg::a7(), Reg::zero(), 3),
    ])?;
    emitter.plain(Instr::Ecall)
}

/// The lines of the start.
#[tactic(auto, using(kernel_code::proofs::Lines::lines_assoc))]
pub(crate) fn put_start(emitter: &mut Emitter, main: u32) -> Result<(), AllocError>
    ensures { OnOk result (emitter.new ≡ emitter.old ++ start_lines main) }
{
    enter_start(emitter)?;
    emitter.call_piece(number_behind(main)?)?;
    end_run(emitter)
}
