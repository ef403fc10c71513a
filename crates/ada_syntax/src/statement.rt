//! Statements (Ada RM 2012, 5, 6.4, 6.5, 11.2, 11.3).

use crate::declaration::{Bounds, Declaration, DiscreteRange, Initial, Pragma};
use crate::expr::Expr;
use crate::name::{Identifier, Name};
use cov_base::{Pos, Seq};
use std::marker::Model;

/// A statement, and the place of its first token.
#[cycle(statement)]
pub struct Statement {
    pub pos: Pos,
    pub kind: StatementKind,
}

// Written out: a derived drop is proved anew in each crate above.
impl Drop for Statement {
    #[cycle(statement)]
    fn drop(self) {
        let Statement { pos: _, kind: _ } = self;
    }
}

impl Model for Statement {
    ghost use Rattle.ada_syntax.specs.StatementTree as tree;
    ghost use Rattle.ada_syntax.specs.StatementCode.{coded_statement};

    ghost Value = { tree.Statement };

    ghost coded = { coded_statement };

    ghost use Rattle.ada_syntax.specs.StatementView.{statement_of};

    ghost view = { statement_of };

    ghost size = { tree.statement_size };

    ghost use Rattle.ada_syntax.specs.StatementSize.{statement_is_larger};

    ghost size_decreases = { λ a h. statement_is_larger a };
}

/// The forms of a statement. A list of statements has at least one.
#[cycle(statement)]
pub enum StatementKind {
    /// `NULL ;`
    Null,
    /// `name := init ;`
    Assignment(Name, Initial),
    /// `name ;`: a call of a procedure.
    Call(Name),
    /// A pragma.
    Pragma(Pragma),
    /// `IF expr THEN stmts {ELSIF expr THEN stmts} [ELSE stmts] END IF ;`: the first branch, the
    /// others, and the statements of the else part, of which there is none where there is no such
    /// part.
    If(Branch, Vec<Branch>, Vec<Statement>),
    /// `CASE expr IS alt {alt} END CASE ;`
    Case(Expr, Vec<Alternative>),
    /// `[WHILE expr | FOR id IN [REVERSE] range] LOOP stmts END LOOP ;`
    Loop(LoopScheme, Vec<Statement>),
    /// `EXIT [WHEN expr] ;`
    Exit(Option<Expr>),
    /// `RETURN [expr] ;`
    Return(Option<Expr>),
    /// `RAISE [name] ;`
    Raise(Option<Name>),
    /// `[DECLARE {ldecl}] BEGIN stmts [handlers] END ;`
    Block(Option<Seq<Declaration>>, HandledStatements),
}

// Written out: a derived drop is proved anew in each crate above.
impl Drop for StatementKind {
    #[cycle(statement)]
    fn drop(self) {
        match self {
            StatementKind::Null => {}
            StatementKind::Assignment(_, _) => {}
            StatementKind::Call(_) => {}
            StatementKind::Pragma(_) => {}
            StatementKind::If(_, _, _) => {}
            StatementKind::Case(_, _) => {}
            StatementKind::Loop(_, _) => {}
            StatementKind::Exit(_) => {}
            StatementKind::Return(_) => {}
            StatementKind::Raise(_) => {}
            StatementKind::Block(_, _) => {}
        }
    }
}

/// `stmts [handlers]`: statements, and what handles their exceptions (RM 11.2). Without an exception
/// part there is no handler.
#[cycle(statement)]
pub struct HandledStatements {
    pub statements: Vec<Statement>,
    pub handlers: Vec<Handler>,
}

// Written out: a derived drop is proved anew in each crate above.
impl Drop for HandledStatements {
    #[cycle(statement)]
    fn drop(self) {
        let HandledStatements {
            statements: _,
            handlers: _,
        } = self;
    }
}

impl Model for HandledStatements {
    ghost use Rattle.ada_syntax.specs.StatementTree as tree;
    ghost use Rattle.ada_syntax.specs.StatementCode.{coded_handled};

    ghost Value = { tree.Handled };

    ghost coded = { coded_handled };

    ghost use Rattle.ada_syntax.specs.StatementView.{handled_of};

    ghost view = { handled_of };

    ghost size = { tree.handled_size };

    ghost use Rattle.ada_syntax.specs.StatementSize.{handled_is_larger};

    ghost size_decreases = { λ a h. handled_is_larger a };
}

/// A condition, and the statements under it.
#[cycle(statement)]
pub struct Branch {
    pub condition: Expr,
    pub statements: Vec<Statement>,
}

// Written out: a derived drop is proved anew in each crate above.
impl Drop for Branch {
    #[cycle(statement)]
    fn drop(self) {
        let Branch {
            condition: _,
            statements: _,
        } = self;
    }
}

/// `WHEN choice {| choice} => stmts` (RM 5.4).
#[cycle(statement)]
pub struct Alternative {
    pub choices: Seq<Choice>,
    pub statements: Vec<Statement>,
}

// Written out: a derived drop is proved anew in each crate above.
impl Drop for Alternative {
    #[cycle(statement)]
    fn drop(self) {
        let Alternative {
            choices: _,
            statements: _,
        } = self;
    }
}

/// `simple [.. simple] | OTHERS` (RM 3.8.1).
pub enum Choice {
    Value(Expr),
    Range(Bounds),
    Others(Pos),
}

// Written out: a derived drop is proved anew in each crate above.
impl Drop for Choice {
    fn drop(self) {
        match self {
            Choice::Value(_) => {}
            Choice::Range(_) => {}
            Choice::Others(_) => {}
        }
    }
}

/// How a loop goes on (RM 5.5).
pub enum LoopScheme {
    /// Without a scheme.
    Forever,
    /// `WHILE expr`
    While(Expr),
    /// `FOR id IN [REVERSE] range`
    For(Identifier, Direction, DiscreteRange),
}

// Written out: a derived drop is proved anew in each crate above.
impl Drop for LoopScheme {
    fn drop(self) {
        match self {
            LoopScheme::Forever => {}
            LoopScheme::While(_) => {}
            LoopScheme::For(_, _, _) => {}
        }
    }
}

/// The order in which a loop parameter takes its values.
#[derive(Clone, Copy, PartialEq, Eq)]
pub enum Direction {
    Forward,
    /// With the word `reverse`.
    Reverse,
}

/// `WHEN exch {| exch} => stmts` (RM 11.2).
#[cycle(statement)]
pub struct Handler {
    pub choices: Seq<ExceptionChoice>,
    pub statements: Vec<Statement>,
}

// Written out: a derived drop is proved anew in each crate above.
impl Drop for Handler {
    #[cycle(statement)]
    fn drop(self) {
        let Handler {
            choices: _,
            statements: _,
        } = self;
    }
}

/// `name | OTHERS` (RM 11.2).
pub enum ExceptionChoice {
    Named(Name),
    Others(Pos),
}

// Written out: a derived drop is proved anew in each crate above.
impl Drop for ExceptionChoice {
    fn drop(self) {
        match self {
            ExceptionChoice::Named(_) => {}
            ExceptionChoice::Others(_) => {}
        }
    }
}
