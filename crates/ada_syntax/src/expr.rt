//! Expressions (Ada RM 2012, 4.4, 4.5).

use crate::name::Name;
use cov_base::Pos;
use std::alloc::{AllocError, Global};
use std::marker::Model;

/// An operator with one operand (RM 4.5.4, 4.5.6).
#[derive(Clone, Copy, PartialEq, Eq)]
pub enum UnaryOperator {
    Plus,
    Minus,
    Abs,
    Not,
}

/// An adding or a multiplying operator (RM 4.5.3, 4.5.5).
#[derive(Clone, Copy, PartialEq, Eq)]
pub enum BinaryOperator {
    Add,
    Subtract,
    Multiply,
    Divide,
    Mod,
    Rem,
}

/// A relational operator (RM 4.5.2).
#[derive(Clone, Copy, PartialEq, Eq)]
pub enum RelationalOperator {
    Equal,
    NotEqual,
    Less,
    LessOrEqual,
    Greater,
    GreaterOrEqual,
}

/// A logical operator or a short-circuit control form (RM 4.5.1).
#[derive(Clone, Copy, PartialEq, Eq)]
pub enum LogicalOperator {
    And,
    Or,
    Xor,
    AndThen,
    OrElse,
}

/// An expression, and the place of its first token.
#[cycle(expr)]
pub struct Expr {
    pub pos: Pos,
    pub kind: ExprKind,
}

// Written out: a derived drop is proved anew in each crate above.
impl Drop for Expr {
    #[cycle(expr)]
    fn drop(self) {
        let Expr { pos: _, kind: _ } = self;
    }
}

impl Model for Expr {
    ghost use Rattle.ada_syntax.specs.Tree as tree;
    ghost use Rattle.ada_syntax.specs.TreeCode.{coded_expr};

    ghost Value = { tree.Expr };

    ghost coded = { coded_expr };

    ghost use Rattle.std.specs.Prelude.{IsTrue};
    ghost use Rattle.ada_syntax.specs.TreeView.{expr_of, has_operators};

    ghost view = { expr_of };

    ghost invariant = { λ e. IsTrue (has_operators e.kind) };

    ghost size = { tree.expr_size };

    ghost use Rattle.ada_syntax.specs.TreeSize.{expr_is_larger};

    ghost size_decreases = { λ a h. expr_is_larger a h };
}

impl Expr {
    ghost use Rattle.std.specs.Prelude.{◌≡◌, IfOk, IsTrue};
    ghost use Rattle.ada_syntax.specs.Tree as tree;
    ghost use Rattle.ada_syntax.specs.TreeView.{expr_at, has_operators, with_operands, joined};

    /// The place and the form of the expression, taken out of it.
    pub fn into_parts(self) -> (Pos, ExprKind)
        ensures form { expr_at result.0 result.1 ≡ self }
        ensures chain { IsTrue (has_operators result.1) }
    {
        let Expr { pos, kind } = self;
        (pos, kind)
    }

    /// The place of the first token.
    #[tactic(auto, using(crate::proofs::Places::places))]
    pub fn pos(&self) -> Pos
        ensures { result ≡ tree.expr_pos self.now }
    {
        self.pos
    }

    /// A numeral.
    pub fn numeral(pos: Pos, value: u32) -> Expr
        ensures { result ≡ tree.numeral pos value }
    {
        Expr {
            pos,
            kind: ExprKind::Numeral(value),
        }
    }

    /// A name, which begins at this place.
    pub fn named(pos: Pos, name: Name) -> Expr
        ensures { result ≡ tree.named pos name }
    {
        Expr {
            pos,
            kind: ExprKind::Name(name),
        }
    }

    /// An expression in parentheses, of which the first stands at this place.
    pub fn parenthesized(alloc: Global, pos: Pos, inner: Expr) -> Result<Expr, AllocError>
        ensures { IfOk result (λ e. e ≡ tree.parenthesized pos inner) }
    {
        let inner = Box::new(alloc, inner)?;
        Ok(Expr {
            pos,
            kind: ExprKind::Parenthesized(inner),
        })
    }

    /// An operator, which stands at this place, and its one operand.
    pub fn unary(
        alloc: Global,
        pos: Pos,
        operator: UnaryOperator,
        operand: Expr,
    ) -> Result<Expr, AllocError>
        ensures { IfOk result (λ e. e ≡ tree.unary pos operator operand) }
    {
        let operand = Box::new(alloc, operand)?;
        Ok(Expr {
            pos,
            kind: ExprKind::Unary(operator, operand),
        })
    }

    /// A first factor, and the multiplying operators and factors that follow it, if there are any.
    pub fn product(alloc: Global, first: Expr, others: Vec<Operand>) -> Result<Expr, AllocError>
        ensures { IfOk result (λ e. e ≡ with_operands (tree.expr_pos first) first others.items) }
    {
        if others.is_empty() {
            return Ok(first);
        }
        let pos = first.pos();
        let first = Box::new(alloc, first)?;
        Ok(Expr {
            pos,
            kind: ExprKind::Product(first, others),
        })
    }

    /// A first term, and the adding operators and terms that follow it, if there are any.
    pub fn sum(alloc: Global, first: Expr, others: Vec<Operand>) -> Result<Expr, AllocError>
        ensures { IfOk result (λ e. e ≡ with_operands (tree.expr_pos first) first others.items) }
    {
        if others.is_empty() {
            return Ok(first);
        }
        let pos = first.pos();
        let first = Box::new(alloc, first)?;
        Ok(Expr {
            pos,
            kind: ExprKind::Sum(first, others),
        })
    }

    /// A relation of two expressions.
    pub fn relation(
        alloc: Global,
        left: Expr,
        operator: RelationalOperator,
        right: Expr,
    ) -> Result<Expr, AllocError>
        ensures { IfOk result (λ e. e ≡ tree.relation (tree.expr_pos left) left operator right) }
    {
        let pos = left.pos();
        let left = Box::new(alloc, left)?;
        let right = Box::new(alloc, right)?;
        Ok(Expr {
            pos,
            kind: ExprKind::Relation(left, operator, right),
        })
    }

    /// A first relation, and those that one operator joins to it, if there are any.
    pub fn logical(
        alloc: Global,
        operator: LogicalOperator,
        first: Expr,
        others: Vec<Expr>,
    ) -> Result<Expr, AllocError>
        ensures { IfOk result (λ e. e ≡ joined (tree.expr_pos first) operator first others.items) }
    {
        if others.is_empty() {
            return Ok(first);
        }
        let pos = first.pos();
        let first = Box::new(alloc, first)?;
        Ok(Expr {
            pos,
            kind: ExprKind::Logical(operator, first, others),
        })
    }
}

/// The forms of an expression.
#[derive(Drop)]
#[cycle(expr)]
pub enum ExprKind {
    /// A numeral, by its value: at most 2147483647.
    Numeral(u32),
    /// A name.
    Name(Name),
    /// `( expr )`
    Parenthesized(Box<Expr>),
    /// An operator and its one operand.
    Unary(UnaryOperator, Box<Expr>),
    /// Factors and the multiplying operators between them, which group to the left. At least one
    /// operator.
    Product(Box<Expr>, Vec<Operand>),
    /// Terms and the adding operators between them, which group to the left. At least one operator.
    Sum(Box<Expr>, Vec<Operand>),
    /// A relation of two simple expressions.
    Relation(Box<Expr>, RelationalOperator, Box<Expr>),
    /// Relations with one and the same logical operator between them, which groups to the left: the
    /// first, and at least one more.
    Logical(LogicalOperator, Box<Expr>, Vec<Expr>),
}

/// An operator and what stands right of it.
#[cycle(expr)]
pub struct Operand {
    pub operator: BinaryOperator,
    pub operand: Expr,
}

// Written out: a derived drop is proved anew in each crate above.
impl Drop for Operand {
    #[cycle(expr)]
    fn drop(self) {
        let Operand {
            operator: _,
            operand: _,
        } = self;
    }
}
