//! The typed program: what the rules on names and types make of the syntax trees, and what
//! obligations, copies of generics and code are made from. Contracts see it as the plain data of
//! ada_meaning, which says what it means.
//!
//! Composite types stand in a table, each built of those before it, and are named by their numbers; the
//! view of a program unfolds them. So records of records stay small. Chains of operators, operands of
//! short-circuit control forms, branches and `others` are flat lists: only what is nested in the text is
//! nested here.
//!
//! The contract that the layers above use: `program_of` of `specs/View.antt` is the program that a
//! [`Program`] is, and statements are seen as ada_meaning's trees.
#![tactic(auto)]

mod expr;
mod label;
mod laws;
mod objects;
mod program;
mod results;
mod statement;
mod types;

pub use expr::{
    Actual, Callee, ExceptionName, Expr, ExprKind, Object, Operand, PredefinedException, Selector,
    ShortCircuit, Test, TestKind,
};
pub use label::Label;
pub use laws::{
    declarations_keep_their_parts, expressions_keep_their_parts, forms_keep_their_parts,
    views_keep_their_parts,
};
pub use program::{
    BodyEntry, ExceptionDeclaration, FormalActual, GenericConstant, Initial, Instance,
    LibraryObject, Mode, Parameter, Program, Raisable, Subprogram, Target, UnitEntry, UnitRole,
};
pub use statement::{
    Alternative, Block, Branch, Choice, Decision, Declaration, Direction, ExceptionChoice,
    ForScheme, Handler, Indices, LoopRange, NewValue, Statement, StatementKind,
};
pub use types::{
    CompositeType, Operator, Owner, Range, Relation, ScalarRange, Sign, Static, StaticValue,
    Subtype, TypeDeclaration,
};
