//! Static expressions, as they are before their values are looked at (Ada RM 2012, 4.9).

use ada_entities::ConstantValue;
use ada_tree::{Operator, Sign, Static};
use std::alloc::{AllocError, Global};
use std::marker::Model;

/// A static expression. Operators with two operands group to the left (RM 4.5): a chain is one flat
/// list, so it nests no deeper than a short one.
#[cycle(static_tree)]
pub struct StaticTree {
    pub kind: StaticKind,
}

// Written out: a derived drop is proved anew in each crate above.
impl Drop for StaticTree {
    #[cycle(static_tree)]
    fn drop(self) {
        let StaticTree { kind: _ } = self;
    }
}

/// The forms of a static expression.
#[derive(Drop)]
#[cycle(static_tree)]
pub enum StaticKind {
    /// A value that is no operator's.
    Value(Static),
    /// The value of a constant.
    Constant(ConstantValue),
    /// An operator with one operand (RM 4.5.4, 4.5.6).
    Signed(Sign, Box<StaticTree>),
    /// The first operand, and at least one operator with what stands right of it (RM 4.5.3, 4.5.5).
    Operations(Box<StaticTree>, Vec<StaticOperand>),
}

/// An operator and what stands right of it.
#[cycle(static_tree)]
pub struct StaticOperand {
    pub operator: Operator,
    pub operand: StaticTree,
}

// Written out: a derived drop is proved anew in each crate above.
impl Drop for StaticOperand {
    #[cycle(static_tree)]
    fn drop(self) {
        let StaticOperand {
            operator: _,
            operand: _,
        } = self;
    }
}

impl Model for StaticTree {
    ghost use Rattle.ada_meaning.specs.Types.{Static};
    ghost use Rattle.ada_tree.specs.TypeCode.{coded_static};

    ghost Value = { Static };

    ghost coded = { coded_static };

    ghost use Rattle.std.specs.Prelude.{IsTrue};
    ghost use Rattle.ada_judged.specs.StaticView.{static_of_tree, has_operators, static_size};

    ghost view = { static_of_tree };

    ghost invariant = { λ t. IsTrue (has_operators t.kind) };

    ghost size = { static_size };

    ghost use Rattle.ada_judged.specs.StaticSize.{tree_is_larger};

    ghost size_decreases = { λ a h. tree_is_larger a h };
}

impl StaticTree {
    ghost use Rattle.std.specs.Prelude.{◌≡◌, option_map, IfOk};
    ghost use Rattle.ada_entities.specs.EntityViews.{constant_of};
    ghost use Rattle.ada_meaning.specs.Types.{static_sign, static_operation};
    ghost use Rattle.ada_tree.specs.View.{static_of, sign_of, operator_of};
    ghost use Rattle.ada_judged.specs.StaticView.{with_operands};

    /// A value that is no operator's.
    pub fn value(value: Static) -> StaticTree
        ensures { result ≡ static_of value }
    {
        StaticTree {
            kind: StaticKind::Value(value),
        }
    }

    /// The value of a constant, where it has one.
    pub fn of_constant(known: Option<ConstantValue>) -> Option<StaticTree>
        ensures { result ≡ option_map constant_of known }
    {
        match known {
            Some(value) => Some(StaticTree {
                kind: StaticKind::Constant(value),
            }),
            None => None,
        }
    }

    /// An operator, and its one operand.
    pub fn signed(alloc: Global, sign: Sign, operand: StaticTree) -> Result<StaticTree, AllocError>
        ensures { IfOk result (λ t. t ≡ static_sign (sign_of sign) operand) }
    {
        let operand = Box::new(alloc, operand)?;
        Ok(StaticTree {
            kind: StaticKind::Signed(sign, operand),
        })
    }

    /// An operator, and its two operands.
    pub fn operation(
        alloc: Global,
        operator: Operator,
        left: StaticTree,
        right: StaticTree,
    ) -> Result<StaticTree, AllocError>
        ensures { IfOk result (λ t. t ≡ static_operation (operator_of operator) left right) }
    {
        let operand = StaticOperand {
            operator,
            operand: right,
        };
        let (first, mut others) = left.opened(alloc)?;
        others.push(operand)?;
        Ok(StaticTree {
            kind: StaticKind::Operations(first, others),
        })
    }

    /// The first operand of a chain, and the operators behind it: what is no chain is an operand alone.
    fn opened(self, alloc: Global) -> Result<(Box<StaticTree>, Vec<StaticOperand>), AllocError>
        ensures { IfOk result (λ p. with_operands p.0.value p.1.items ≡ self) }
    {
        let StaticTree { kind } = self;
        match kind {
            StaticKind::Operations(first, others) => Ok((first, others)),
            kind => {
                let first = Box::new(alloc, StaticTree { kind })?;
                Ok((first, Vec::new(alloc)))
            }
        }
    }
}
