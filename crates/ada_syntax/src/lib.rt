//! Syntax trees of the Ada subset, with the place of each part that is named in a refusal or an
//! obligation.
//!
//! What the grammar repeats is a list of the tree. So a tree is only as deep as the source nests
//! parentheses and statements.
//!
//! The contract that the layers above use: contracts see a [`Name`], an [`Expr`] and a [`Statement`]
//! as plain data of `specs/`, and [`node_count`] is the number of a unit's tokens but for
//! punctuation.
#![tactic(auto)]

mod declaration;
mod expr;
mod name;
mod nodes;
mod statement;
mod unit;

pub use declaration::{
    Bounds, Component, Constancy, Declaration, DeclarationKind, DiscreteRange, Initial, Pragma,
    SubtypeIndication, TypeDefinition,
};
pub use expr::{
    BinaryOperator, Expr, ExprKind, LogicalOperator, Operand, RelationalOperator, UnaryOperator,
};
pub use name::{Identifier, Name, Suffix};
pub use nodes::{body_node_count, item_node_count, node_count};
pub use statement::{
    Alternative, Branch, Choice, Direction, ExceptionChoice, HandledStatements, Handler,
    LoopScheme, Statement, StatementKind,
};
pub use unit::{
    BodyItem, Formal, FormalKind, Instance, LibraryItem, Mode, PackageBody, PackageItem,
    PackageSpecification, Parameter, Specification, SubprogramBody, Unit, WithClause,
};
