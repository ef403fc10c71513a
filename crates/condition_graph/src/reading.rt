//! How a graph is read from the postfix bytes of an expression, from the last byte to the first.
//!
//! An operator comes before its operands then, and its right operand before its left one. So the
//! first node of the right operand is known when the left one begins, which leads to it.

ghost use Rattle.std.specs.Prelude.{◌≡◌, OnOk, IfOk, if◌then◌else◌};
ghost use Rattle.condition_graph.specs.Target.{edges_of};

use crate::node::{Exits, Next};
use cov_base::CondIx;
use std::alloc::{AllocError, Global};

const NOT: u8 = 32;

const AND_THEN: u8 = 33;

const OR_ELSE: u8 = 34;

/// An expression that is still to be read: where its outcomes lead. If `goes_on` is a value, then
/// that outcome leads to the first node that has been read once the expression begins.
#[derive(Clone, Copy, PartialEq, Eq)]
pub(crate) struct Pending {
    pub(crate) exits: Exits,
    pub(crate) goes_on: Option<bool>,
}

/// What has been read: the first node, the expressions that are still to be read, the next one
/// last, and the nodes, the first one last.
#[derive(Drop)]
pub(crate) struct Reading {
    pub(crate) first: CondIx,
    pub(crate) pending: Vec<Pending>,
    pub(crate) nodes: Vec<Exits>,
}

impl Pending {
    ghost use Rattle.condition_graph.specs.Reading.{exits_by};

    /// Where the outcomes lead, where `first` is the first node that has been read.
    fn exits_after(self, first: CondIx) -> Exits
        ensures { edges_of result ≡ exits_by self.goes_on first.0 (edges_of self.exits) }
    {
        match self.goes_on {
            None => self.exits,
            Some(true) => Exits {
                on_true: Next::Node(first),
                on_false: self.exits.on_false,
            },
            Some(false) => Exits {
                on_true: self.exits.on_true,
                on_false: Next::Node(first),
            },
        }
    }
}

impl Reading {
    ghost use Rattle.condition_graph.specs.Reading.{state_of, started, turned, begun, read_down};

    /// Nothing has been read of a decision's expression.
    fn new(alloc: Global) -> Result<Self, AllocError>
        ensures { IfOk result (λ r. state_of r ≡ started) }
    {
        let exits = Exits {
            on_true: Next::Leaf(true),
            on_false: Next::Leaf(false),
        };
        let mut pending = Vec::new(alloc);
        pending.push(Pending {
            exits,
            goes_on: None,
        })?;
        Ok(Reading {
            first: CondIx(0),
            pending,
            nodes: Vec::new(alloc),
        })
    }

    /// Reads the operator of an expression whose outcomes lead to `exits`: its right operand is read
    /// next, and the left one goes on with the right one at `neutral`.
    fn begin_operands(&mut self, exits: Exits, neutral: bool) -> Result<(), AllocError>
        ensures { OnOk result (state_of self.new ≡ begun (if neutral then 33 else 34) (edges_of exits)
            (state_of self.old).first (state_of self.old).pending (state_of self.old).nodes) }
    {
        self.pending.push(Pending {
            exits,
            goes_on: Some(neutral),
        })?;
        self.pending.push(Pending {
            exits,
            goes_on: None,
        })?;
        Ok(())
    }

    /// Reads the last byte of an expression whose outcomes lead to `exits`.
    fn begin(&mut self, byte: u8, exits: Exits) -> Result<(), AllocError>
        ensures { OnOk result (state_of self.new ≡ begun byte (edges_of exits)
            (state_of self.old).first (state_of self.old).pending (state_of self.old).nodes) }
    {
        match byte {
            NOT => {
                let exits = Exits {
                    on_true: exits.on_false,
                    on_false: exits.on_true,
                };
                self.pending.push(Pending {
                    exits,
                    goes_on: None,
                })?;
            }
            AND_THEN => self.begin_operands(exits, true)?,
            OR_ELSE => self.begin_operands(exits, false)?,
            condition => {
                self.nodes.push(exits)?;
                self.first = CondIx(condition);
            }
        }
        Ok(())
    }

    /// Reads one byte more.
    fn read_byte(&mut self, byte: u8) -> Result<(), AllocError>
        ensures { OnOk result (state_of self.new ≡ turned byte (state_of self.old)) }
    {
        if let Some(pending) = self.pending.pop() {
            let exits = pending.exits_after(self.first);
            self.begin(byte, exits)?;
        }
        Ok(())
    }

    /// Reads the bytes of a decision's expression.
    pub(crate) fn of(alloc: Global, bytes: &[u8]) -> Result<Self, AllocError>
        ensures { IfOk result (λ r. state_of r ≡ read_down bytes.now started) }
    {
        let mut reading = Reading::new(alloc)?;
        for at in (0..bytes.len()).rev() {
            reading.read_byte(bytes[at])?;
        }
        Ok(reading)
    }
}
