//! Expressions and calls (Ada RM 2012, 4.4, 6.4).

use crate::label::Label;
use crate::types::{Operator, Owner, Relation, ScalarRange, Sign, Static};
use cov_base::Pos;
use std::alloc::{AllocError, Global};
use std::marker::Model;

/// An object by its declaration.
#[derive(Clone, Copy)]
pub enum Object {
    /// The object of the library level with this number, of an instance.
    Library(Owner, u32),
    /// The object with this number among those of the subprogram that is executed.
    Local(u32),
}

/// What a call names (RM 6.4).
#[derive(Clone, Copy)]
pub enum Callee {
    /// `Test_IO.Get`
    TestGet,
    /// `Test_IO.Put`
    TestPut,
    /// The subprogram with this number among the program's.
    Subprogram(Owner, u32),
    /// The formal subprogram with this place among the formals of the generic (RM 12.6).
    Formal(u32),
}

/// A predefined exception (RM 11.1; the last is Test_IO's).
#[derive(Clone, Copy)]
pub enum PredefinedException {
    ConstraintError,
    ProgramError,
    StorageError,
    EndError,
}

/// An exception by name (RM 11.1).
#[derive(Clone, Copy)]
pub enum ExceptionName {
    Predefined(PredefinedException),
    /// The exception with this declaration, of an instance.
    Declared(Owner, u32),
}

/// An expression.
#[cycle(expr)]
pub struct Expr {
    pub kind: ExprKind,
}

// Written out: a derived drop is proved anew in each crate above.
impl Drop for Expr {
    #[cycle(expr)]
    fn drop(self) {
        let Expr { kind: _ } = self;
    }
}

impl Model for Expr {
    ghost use Rattle.ada_meaning.specs.Tree as tree;
    ghost use Rattle.ada_tree.specs.ExprCode.{coded_expr};

    ghost Value = { tree.Expr };

    ghost coded = { coded_expr };

    ghost use Rattle.std.specs.Prelude.{IsTrue};
    ghost use Rattle.ada_tree.specs.Sizes.{expr_size};
    ghost use Rattle.ada_tree.specs.View.{expr_of, has_operators};

    ghost view = { expr_of };

    ghost invariant = { λ e. IsTrue (has_operators e.kind) };

    ghost size = { expr_size };

    ghost use Rattle.ada_tree.specs.SizeLaws.{expr_is_larger};

    ghost size_decreases = { λ a h. expr_is_larger a h };
}

impl Expr {
    ghost use Rattle.std.specs.Prelude.{◌≡◌, IfOk, IsTrue};
    ghost use Rattle.ada_meaning.specs.Tree as tree;
    ghost use Rattle.ada_tree.specs.View.{expr_at, has_operators, static_of, object_of, sign_of, relation_of, label_of, with_operands, parts_of, scalar_range_of, callee_of, actuals_of};

    /// The form of the expression, taken out of it.
    pub fn into_kind(self) -> ExprKind
        ensures form { expr_at result ≡ self }
        ensures chain { IsTrue (has_operators result) }
    {
        let Expr { kind } = self;
        kind
    }

    /// A numeral, or an enumeration literal by its position number.
    pub fn literal(value: i32) -> Expr
        ensures { result ≡ tree.literal value }
    {
        Expr {
            kind: ExprKind::Literal(value),
        }
    }

    /// A static expression that is no numeral.
    pub fn constant(value: Static) -> Expr
        ensures { result ≡ tree.constant (static_of value) }
    {
        Expr {
            kind: ExprKind::Constant(value),
        }
    }

    /// The value of an object.
    pub fn read(object: Object) -> Expr
        ensures { result ≡ tree.read (object_of object) tree.whole }
    {
        Expr {
            kind: ExprKind::Read(object),
        }
    }

    /// An operator, and its one operand.
    pub fn signed(alloc: Global, sign: Sign, operand: Expr) -> Result<Expr, AllocError>
        ensures { IfOk result (λ e. e ≡ tree.signed (sign_of sign) operand) }
    {
        let operand = Box::new(alloc, operand)?;
        Ok(Expr {
            kind: ExprKind::Signed(sign, operand),
        })
    }

    /// The value of a part of an object.
    pub fn part(object: Object, parts: Vec<Selector>) -> Expr
        ensures { result ≡ tree.read (object_of object) (parts_of parts.items) }
    {
        Expr {
            kind: ExprKind::Part(object, parts),
        }
    }

    /// An attribute of an object or of a part of one, and its value.
    pub fn attribute(object: Object, parts: Vec<Selector>, value: Static) -> Expr
        ensures { result ≡ tree.attribute (object_of object) (parts_of parts.items) (static_of value) }
    {
        Expr {
            kind: ExprKind::Attribute(object, parts, value),
        }
    }

    /// A conversion of an operand to a subtype.
    pub fn conversion(
        alloc: Global,
        subtype: ScalarRange,
        operand: Expr,
    ) -> Result<Expr, AllocError>
        ensures { IfOk result (λ e. e ≡ tree.conversion (scalar_range_of subtype) operand) }
    {
        let operand = Box::new(alloc, operand)?;
        Ok(Expr {
            kind: ExprKind::Conversion(subtype, operand),
        })
    }

    /// A call of a function with its actuals.
    pub fn call(callee: Callee, actuals: Vec<Actual>) -> Expr
        ensures { result ≡ tree.call (callee_of callee) (actuals_of actuals.items) }
    {
        Expr {
            kind: ExprKind::Call(callee, actuals),
        }
    }

    /// A relation of two operands.
    pub fn relation(
        alloc: Global,
        relation: Relation,
        left: Expr,
        right: Expr,
    ) -> Result<Expr, AllocError>
        ensures { IfOk result (λ e. e ≡ tree.relation (relation_of relation) left right) }
    {
        let left = Box::new(alloc, left)?;
        let right = Box::new(alloc, right)?;
        Ok(Expr {
            kind: ExprKind::Relation(relation, left, right),
        })
    }

    /// `not` of an operand.
    pub fn complement(alloc: Global, operand: Expr) -> Result<Expr, AllocError>
        ensures { IfOk result (λ e. e ≡ tree.complement operand) }
    {
        let operand = Box::new(alloc, operand)?;
        Ok(Expr {
            kind: ExprKind::Complement(operand),
        })
    }

    /// A decision that stands in no condition of a statement, with its label.
    pub fn decision(alloc: Global, label: Label, test: Test) -> Result<Expr, AllocError>
        ensures { IfOk result (λ e. e ≡ tree.decision (label_of label) test) }
    {
        let test = Box::new(alloc, test)?;
        Ok(Expr {
            kind: ExprKind::Decision(label, test),
        })
    }

    /// A first operand, and the operators and operands right of it, if there are any.
    pub fn operations(alloc: Global, first: Expr, others: Vec<Operand>) -> Result<Expr, AllocError>
        ensures { IfOk result (λ e. e ≡ with_operands first others.items) }
    {
        if others.is_empty() {
            return Ok(first);
        }
        let first = Box::new(alloc, first)?;
        Ok(Expr {
            kind: ExprKind::Operations(first, others),
        })
    }
}

/// The forms of an expression.
#[derive(Drop)]
#[cycle(expr)]
pub enum ExprKind {
    /// A numeral, or the position number of an enumeration literal (RM 2.4, 3.5.1).
    Literal(i32),
    /// A static expression that is no numeral: a formal object, a constant of a generic, or an
    /// attribute of a type (RM 3.5, 4.9, 12.4).
    Constant(Static),
    /// The value of an object (RM 4.1).
    Read(Object),
    /// The value of a part of an object (RM 4.1).
    Part(Object, Vec<Selector>),
    /// First, Last or Length of an object or of a part of one, and its value (RM 3.6.2). Indices in
    /// the name are evaluated.
    Attribute(Object, Vec<Selector>, Static),
    /// An operator with one operand (RM 4.5.4, 4.5.6).
    Signed(Sign, Box<Expr>),
    /// Operators with two operands, which group to the left (RM 4.5): the first operand, and at least
    /// one operator with what stands right of it. So a long chain nests no deeper than a short one.
    Operations(Box<Expr>, Vec<Operand>),
    /// A relation of two operands (RM 4.5.2).
    Relation(Relation, Box<Expr>, Box<Expr>),
    /// `not` of what is no short-circuit control form (RM 4.5.6).
    Complement(Box<Expr>),
    /// A conversion to a subtype (RM 4.6).
    Conversion(ScalarRange, Box<Expr>),
    /// A call of a function (RM 6.4).
    Call(Callee, Vec<Actual>),
    /// A decision: a maximal Boolean expression with at least one short-circuit control form (RM 4.5.1).
    Decision(Label, Box<Test>),
}

/// A selector of a name (RM 4.1.1, 4.1.3).
#[cycle(expr)]
pub enum Selector {
    /// The component of a record with this place among its components.
    Component(u32),
    /// The component of an array with this index, which has to be one of these values.
    Element(ScalarRange, Expr),
}

// Written out: a derived drop is proved anew in each crate above.
impl Drop for Selector {
    #[cycle(expr)]
    fn drop(self) {
        match self {
            Selector::Component(_) => {}
            Selector::Element(_, _) => {}
        }
    }
}

/// An operator and what stands right of it.
#[cycle(expr)]
pub struct Operand {
    pub operator: Operator,
    pub operand: Expr,
}

// Written out: a derived drop is proved anew in each crate above.
impl Drop for Operand {
    #[cycle(expr)]
    fn drop(self) {
        let Operand {
            operator: _,
            operand: _,
        } = self;
    }
}

/// The expression of a decision.
#[cycle(expr)]
pub struct Test {
    pub kind: TestKind,
}

// Written out: a derived drop is proved anew in each crate above.
impl Drop for Test {
    #[cycle(expr)]
    fn drop(self) {
        let Test { kind: _ } = self;
    }
}

impl Model for Test {
    ghost use Rattle.ada_meaning.specs.Tree as tree;
    ghost use Rattle.ada_tree.specs.ExprCode.{coded_test};

    ghost Value = { tree.Test };

    ghost coded = { coded_test };

    ghost use Rattle.std.specs.Prelude.{IsTrue};
    ghost use Rattle.ada_tree.specs.Sizes.{test_size};
    ghost use Rattle.ada_tree.specs.View.{test_of, has_forms};

    ghost view = { test_of };

    ghost invariant = { λ t. IsTrue (has_forms t.kind) };

    ghost size = { test_size };

    ghost use Rattle.ada_tree.specs.SizeLaws.{test_is_larger};

    ghost size_decreases = { λ a h. test_is_larger a h };
}

impl Test {
    ghost use Rattle.std.specs.Prelude.{◌≡◌, IfOk, IsTrue};
    ghost use Rattle.ada_meaning.specs.Tree as tree;
    ghost use Rattle.ada_tree.specs.View.{test_at, has_forms, neutral_of, with_tests};

    /// The form of the test, taken out of it.
    pub fn into_kind(self) -> TestKind
        ensures form { test_at result ≡ self }
        ensures chain { IsTrue (has_forms result) }
    {
        let Test { kind } = self;
        kind
    }

    /// A condition, which begins at this place.
    pub fn condition(pos: Pos, operand: Expr) -> Test
        ensures { result ≡ tree.condition pos operand }
    {
        Test {
            kind: TestKind::Condition(pos, operand),
        }
    }

    /// `not` of a test.
    pub fn negation(alloc: Global, operand: Test) -> Result<Test, AllocError>
        ensures { IfOk result (λ t. t ≡ tree.negation operand) }
    {
        let operand = Box::new(alloc, operand)?;
        Ok(Test {
            kind: TestKind::Negation(operand),
        })
    }

    /// A first operand, and those that a short-circuit control form joins to it, if there are any.
    pub fn short_circuit(
        alloc: Global,
        form: ShortCircuit,
        first: Test,
        others: Vec<Test>,
    ) -> Result<Test, AllocError>
        ensures { IfOk result (λ t. t ≡ with_tests (neutral_of form) first others.items) }
    {
        if others.is_empty() {
            return Ok(first);
        }
        let first = Box::new(alloc, first)?;
        Ok(Test {
            kind: TestKind::ShortCircuit(form, first, others),
        })
    }
}

/// The forms of a decision's expression.
#[derive(Drop)]
#[cycle(expr)]
pub enum TestKind {
    /// A condition: an operand without `not` and parentheses, and the place of its first token.
    Condition(Pos, Expr),
    /// `not` of what holds a short-circuit control form, or of a condition.
    Negation(Box<Test>),
    /// Operands of one short-circuit control form, which group to the left (RM 4.5): the first, and at
    /// least one more. So a long chain nests no deeper than a short one.
    ShortCircuit(ShortCircuit, Box<Test>, Vec<Test>),
}

/// A short-circuit control form (RM 4.5.1).
#[derive(Clone, Copy)]
pub enum ShortCircuit {
    AndThen,
    OrElse,
}

/// An actual parameter (RM 6.4.1).
#[cycle(expr)]
pub enum Actual {
    /// An expression, for a scalar parameter of mode in.
    Expression(Expr),
    /// A variable and its subtype, for a scalar parameter of another mode.
    Variable(Object, ScalarRange),
    /// A part of a variable and its subtype, likewise.
    Part(Object, Vec<Selector>, ScalarRange),
    /// An object or a part of one, for a composite parameter of any mode.
    Composite(Object, Vec<Selector>),
}

// Written out: a derived drop is proved anew in each crate above.
impl Drop for Actual {
    #[cycle(expr)]
    fn drop(self) {
        match self {
            Actual::Expression(_) => {}
            Actual::Variable(_, _) => {}
            Actual::Part(_, _, _) => {}
            Actual::Composite(_, _) => {}
        }
    }
}
