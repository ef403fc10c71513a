//! Declarations, statements and blocks (Ada RM 2012, 3.3.1, 5, 6.3).

use crate::expr::{Actual, Callee, ExceptionName, Expr, Object, Selector, Test};
use crate::label::Label;
use crate::types::{Owner, ScalarRange, Static, Subtype};
use cov_base::Seq;
use std::marker::Model;

/// What an object is set to.
pub enum NewValue {
    /// An expression, for a scalar object of this subtype.
    Scalar(ScalarRange, Expr),
    /// An object or a part of one, for a composite object of the type with this number in the table of
    /// types.
    Composite(Owner, u32, Object, Vec<Selector>),
    /// `(others => ..)` round a value for a scalar component of this subtype (RM 4.3.3).
    OthersScalar(Indices, ScalarRange, Expr),
    /// The same round a value for a composite component.
    OthersComposite(Indices, Owner, u32, Object, Vec<Selector>),
}

// Written out: a derived drop is proved anew in each crate above.
impl Drop for NewValue {
    fn drop(self) {
        match self {
            NewValue::Scalar(_, _) => {}
            NewValue::Composite(_, _, _, _) => {}
            NewValue::OthersScalar(_, _, _) => {}
            NewValue::OthersComposite(_, _, _, _, _) => {}
        }
    }
}

/// The indices of an array, and of the arrays that are its components, as far in as `(others => ..)` goes.
pub struct Indices {
    pub outermost: ScalarRange,
    pub inner: Seq<ScalarRange>,
}

// Written out: a derived drop is proved anew in each crate above.
impl Drop for Indices {
    fn drop(self) {
        let Indices {
            outermost: _,
            inner: _,
        } = self;
    }
}

/// A choice of a case alternative (RM 5.4).
#[derive(Clone, Copy)]
pub enum Choice {
    Value(Static),
    Range(Static, Static),
    Others,
}

/// A choice of a handler (RM 11.2).
#[derive(Clone, Copy)]
pub enum ExceptionChoice {
    Exception(ExceptionName),
    Others,
}

/// The values of a loop parameter (RM 5.5).
pub enum LoopRange {
    /// Those of a subtype.
    Subtype(ScalarRange),
    /// Those between two bounds, which are evaluated when the loop begins.
    Bounds(Expr, Expr),
}

// Written out: a derived drop is proved anew in each crate above.
impl Drop for LoopRange {
    fn drop(self) {
        match self {
            LoopRange::Subtype(_) => {}
            LoopRange::Bounds(_, _) => {}
        }
    }
}

/// The order in which a for loop takes its values (RM 5.5).
#[derive(Clone, Copy)]
pub enum Direction {
    Rising,
    Falling,
}

/// The iteration scheme of a for loop (RM 5.5): the number of its parameter among the objects of the
/// subprogram, and the parameter's values.
pub struct ForScheme {
    pub parameter: u32,
    pub direction: Direction,
    pub values: LoopRange,
}

// Written out: a derived drop is proved anew in each crate above.
impl Drop for ForScheme {
    fn drop(self) {
        let ForScheme {
            parameter: _,
            direction: _,
            values: _,
        } = self;
    }
}

/// A declaration of an object (RM 3.3.1), by its number among those of the subprogram.
pub enum Declaration {
    /// With an initial value, and so a statement obligation.
    Initialized(Label, u32, NewValue),
    /// Without one, by its subtype.
    WithoutValue(u32, Subtype),
}

// Written out: a derived drop is proved anew in each crate above.
impl Drop for Declaration {
    fn drop(self) {
        match self {
            Declaration::Initialized(_, _, _) => {}
            Declaration::WithoutValue(_, _) => {}
        }
    }
}

/// A decision, with its label.
pub struct Decision {
    pub label: Label,
    pub test: Test,
}

// Written out: a derived drop is proved anew in each crate above.
impl Drop for Decision {
    fn drop(self) {
        let Decision { label: _, test: _ } = self;
    }
}

/// A statement.
#[cycle(statement)]
pub struct Statement {
    pub kind: StatementKind,
}

// Written out: a derived drop is proved anew in each crate above.
impl Drop for Statement {
    #[cycle(statement)]
    fn drop(self) {
        let Statement { kind: _ } = self;
    }
}

impl Model for Statement {
    ghost use Rattle.ada_meaning.specs.Tree as tree;
    ghost use Rattle.ada_tree.specs.StmtCode.{coded_stmt};

    ghost Value = { tree.Stmt };

    ghost coded = { coded_stmt };

    ghost use Rattle.ada_tree.specs.View.{statement_of};

    ghost view = { statement_of };

    ghost use Rattle.ada_tree.specs.Sizes.{stmt_size};

    ghost size = { stmt_size };

    ghost use Rattle.ada_tree.specs.SizeLaws.{statement_is_larger};

    ghost size_decreases = { λ a h. statement_is_larger a };
}

/// The forms of a statement. Each but a block has the label of its obligation.
#[cycle(statement)]
pub enum StatementKind {
    /// `null;` (RM 5.1)
    Null(Label),
    /// An assignment to an object (RM 5.2).
    Assignment(Label, Object, NewValue),
    /// An assignment to a part of an object.
    PartAssignment(Label, Object, Vec<Selector>, NewValue),
    /// A call of a procedure (RM 6.4).
    Call(Label, Callee, Seq<Actual>),
    /// An if statement (RM 5.3): `if` and `elsif` in order, and the statements of the else part.
    If(Label, Vec<Branch>, Vec<Statement>),
    /// A case statement (RM 5.4).
    Case(Label, Expr, Vec<Alternative>),
    /// A loop without an iteration scheme (RM 5.5).
    Loop(Label, Vec<Statement>),
    /// A while loop (RM 5.5).
    While(Label, Decision, Vec<Statement>),
    /// A for loop (RM 5.5).
    For(Label, ForScheme, Vec<Statement>),
    /// `exit;` (RM 5.7)
    Exit(Label),
    /// `exit when` (RM 5.7)
    ExitWhen(Label, Decision),
    /// `return;` (RM 6.5)
    Return(Label),
    /// A return of a function, with the subtype of its result (RM 6.5).
    ReturnValue(Label, ScalarRange, Expr),
    /// A raise statement with a name (RM 11.3).
    Raise(Label, ExceptionName),
    /// `raise;` (RM 11.3)
    RaiseAgain(Label),
    /// A block statement (RM 5.6).
    Block(Block),
}

// Written out: a derived drop is proved anew in each crate above.
impl Drop for StatementKind {
    #[cycle(statement)]
    fn drop(self) {
        match self {
            StatementKind::Null(_) => {}
            StatementKind::Assignment(_, _, _) => {}
            StatementKind::PartAssignment(_, _, _, _) => {}
            StatementKind::Call(_, _, _) => {}
            StatementKind::If(_, _, _) => {}
            StatementKind::Case(_, _, _) => {}
            StatementKind::Loop(_, _) => {}
            StatementKind::While(_, _, _) => {}
            StatementKind::For(_, _, _) => {}
            StatementKind::Exit(_) => {}
            StatementKind::ExitWhen(_, _) => {}
            StatementKind::Return(_) => {}
            StatementKind::ReturnValue(_, _, _) => {}
            StatementKind::Raise(_, _) => {}
            StatementKind::RaiseAgain(_) => {}
            StatementKind::Block(_) => {}
        }
    }
}

/// A decision after `if` or `elsif`, and the statements behind its `then` (RM 5.3).
#[cycle(statement)]
pub struct Branch {
    pub decision: Decision,
    pub statements: Vec<Statement>,
}

// Written out: a derived drop is proved anew in each crate above.
impl Drop for Branch {
    #[cycle(statement)]
    fn drop(self) {
        let Branch {
            decision: _,
            statements: _,
        } = self;
    }
}

/// An alternative of a case statement (RM 5.4).
#[cycle(statement)]
pub struct Alternative {
    pub choices: Seq<Choice>,
    pub statements: Vec<Statement>,
}

// Written out: a derived drop is proved anew in each crate above.
impl Drop for Alternative {
    #[cycle(statement)]
    fn drop(self) {
        let Alternative {
            choices: _,
            statements: _,
        } = self;
    }
}

/// A handler of exceptions (RM 11.2).
#[cycle(statement)]
pub struct Handler {
    pub choices: Seq<ExceptionChoice>,
    pub statements: Vec<Statement>,
}

// Written out: a derived drop is proved anew in each crate above.
impl Drop for Handler {
    #[cycle(statement)]
    fn drop(self) {
        let Handler {
            choices: _,
            statements: _,
        } = self;
    }
}

/// The declarations, statements and handlers of a body or of a block statement (RM 5.6, 6.3, 11.2).
#[cycle(statement)]
pub struct Block {
    pub declarations: Seq<Declaration>,
    pub statements: Vec<Statement>,
    pub handlers: Vec<Handler>,
}

// Written out: a derived drop is proved anew in each crate above.
impl Drop for Block {
    #[cycle(statement)]
    fn drop(self) {
        let Block {
            declarations: _,
            statements: _,
            handlers: _,
        } = self;
    }
}

impl Model for Block {
    ghost use Rattle.ada_meaning.specs.Tree as tree;
    ghost use Rattle.ada_tree.specs.StmtCode.{coded_block};

    ghost Value = { tree.Block };

    ghost coded = { coded_block };

    ghost use Rattle.ada_tree.specs.View.{block_of};

    ghost view = { block_of };

    ghost use Rattle.ada_tree.specs.Sizes.{block_size};

    ghost size = { block_size };

    ghost use Rattle.ada_tree.specs.SizeLaws.{block_is_larger};

    ghost size_decreases = { λ a h. block_is_larger a };
}
