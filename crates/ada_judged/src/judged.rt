//! Expressions, as they were judged (Ada RM 2012, 3.3, 4.1, 4.4).

use crate::kind::Kind;
use crate::static_tree::StaticTree;
use ada_entities::{Access, ConstantValue, Subtype, Values};
use ada_tree::{Expr, Object, Selector, Test};
use cov_base::Pos;

/// Whether an index stands in the name of an object.
#[derive(Clone, Copy)]
pub enum Indexing {
    Fixed,
    Indexed,
}

/// An object, or a part of one: where it stands, whether it may be assigned, the static value of a
/// constant, and the values that a case statement on it names.
#[derive(Drop)]
pub struct Variable {
    pub object: Object,
    pub parts: Vec<Selector>,
    pub subtype: Subtype,
    pub access: Access,
    pub indexing: Indexing,
    pub known: Option<ConstantValue>,
    pub values: Values,
}

/// The typed form of an expression.
#[derive(Drop)]
pub enum Form {
    /// A value that is no object's.
    Plain(Expr),
    /// The test of a decision that is not closed yet.
    Test(Test),
    /// The value of an object or of a part of one.
    Object(Variable),
}

/// Whether an expression is just a name.
#[derive(Clone, Copy)]
pub enum Spelling {
    Name,
    Other,
}

/// An expression: its form; the first token of the operand that is left without `not` and parentheses;
/// what it fits; its static value; the values that a case statement on it names, where it is an object,
/// a call or a conversion; and whether it is just a name.
#[derive(Drop)]
pub struct Judged {
    pub form: Form,
    pub at: Pos,
    pub kind: Kind,
    pub known: Option<StaticTree>,
    pub values: Option<Values>,
    pub spelling: Spelling,
}
