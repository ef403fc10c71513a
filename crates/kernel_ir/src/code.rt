//! Code: operations in order, and operations that hold code.

use crate::simple::{Simple, Slot};
use cov_base::{DecId, InstId};
use std::alloc::{AllocError, Global};
use std::marker::Model;

/// Operations in order.
#[cycle(code)]
pub struct Code {
    pub ops: Vec<Op>,
}

// Written out: a derived drop is proved anew in each crate above.
impl Drop for Code {
    #[cycle(code)]
    fn drop(self) {
        let Code { ops: _ } = self;
    }
}

impl Model for Code {
    ghost use Rattle.kernel_ir.specs.Tree as tree;
    ghost use Rattle.kernel_ir.specs.TreeCode.{coded_code};

    ghost Value = { tree.Code };

    ghost coded = { coded_code };

    ghost use Rattle.kernel_ir.specs.TreeView.{code_of};

    ghost view = { code_of };

    ghost size = { tree.code_size };

    ghost use Rattle.kernel_ir.specs.TreeSize.{code_is_larger};

    ghost size_decreases = { λ a h. code_is_larger a };
}

impl Code {
    ghost use Rattle.std.specs.Prelude.{◌≡◌, OnOk, OnErr};
    ghost use Rattle.kernel_ir.specs.Tree as tree;
    ghost use Rattle.kernel_ir.specs.Tree.{no_op, and_op};
    ghost use Rattle.kernel_ir.specs.TreeView.{op_of};
    ghost use Rattle.kernel_ir.specs.Sequence.{joined};

    /// No operation.
    pub fn new(alloc: Global) -> Self
        ensures { result ≡ no_op }
    {
        Code {
            ops: Vec::new(alloc),
        }
    }

    /// Puts an operation behind the others.
    #[tactic(auto, using(crate::proofs::Building::ops_push))]
    pub fn push(&mut self, op: Op) -> Result<(), AllocError>
        ensures ok { OnOk result (self.new ≡ joined self.old (and_op (op_of op) no_op)) }
        ensures err { OnErr result (self.new ≡ self.old) }
    {
        self.ops.push(op)?;
        Ok(())
    }

    /// Puts an operation that holds no others behind the others.
    pub fn push_simple(&mut self, simple: Simple) -> Result<(), AllocError>
        ensures ok { OnOk result (self.new ≡ joined self.old (and_op (tree.simple simple) no_op)) }
        ensures err { OnErr result (self.new ≡ self.old) }
    {
        self.push(Op::Simple(simple))
    }
}

/// An operation.
#[cycle(code)]
pub enum Op {
    /// One that holds no others.
    Simple(Simple),
    /// The first code where a slot is 1, and else the second one.
    Choose {
        slot: Slot,
        if_true: Code,
        if_false: Code,
    },
    /// Repeats its code until it is left.
    Forever(Code),
    /// Repeats its code until it is left, which is within 2 ^ 32 turns.
    ForLoop(Code),
    /// Leaves the innermost loop.
    Exit,
    /// Returns from the body.
    Returns,
    /// The first code; the second one for its exceptions, with the exception's number in a slot.
    Catch {
        body: Code,
        slot: Slot,
        handler: Code,
    },
    /// Evaluates a decision in an instance, from its first node, and sets a slot to its outcome: 1 for
    /// True, 0 for False.
    Decide {
        decision: DecId,
        instance: InstId,
        slot: Slot,
        nodes: Vec<Node>,
    },
    /// Calls the body with this number. The words of its arguments stand in the slots from the caller's
    /// width on.
    Call {
        body: u32,
    },
}

// Written out: a derived drop is proved anew in each crate above.
impl Drop for Op {
    #[cycle(code)]
    fn drop(self) {
        match self {
            Op::Simple(_) => {}
            Op::Choose {
                slot: _,
                if_true: _,
                if_false: _,
            } => {}
            Op::Forever(_) => {}
            Op::ForLoop(_) => {}
            Op::Exit => {}
            Op::Returns => {}
            Op::Catch {
                body: _,
                slot: _,
                handler: _,
            } => {}
            Op::Decide {
                decision: _,
                instance: _,
                slot: _,
                nodes: _,
            } => {}
            Op::Call { body: _ } => {}
        }
    }
}

/// A node of a decision: the code of its condition, the slot that holds its value then, and where its
/// edges lead. The condition is True where the slot is 1.
#[cycle(code)]
pub struct Node {
    pub operand: Code,
    pub slot: Slot,
    pub on_true: Edge,
    pub on_false: Edge,
}

// Written out: a derived drop is proved anew in each crate above.
impl Drop for Node {
    #[cycle(code)]
    fn drop(self) {
        let Node {
            operand: _,
            slot: _,
            on_true: _,
            on_false: _,
        } = self;
    }
}

/// Where an edge leads: to an outcome, or past this many nodes of those that follow.
#[derive(Clone, Copy)]
pub enum Edge {
    Leaf(bool),
    NodeAfter(u32),
}
