//! Types, static expressions and operators (Ada RM 2012, 3.5, 3.6, 3.8, 4.5, 4.9).

use cov_base::Seq;

/// Whose entity a name denotes.
#[derive(Clone, Copy)]
pub enum Owner {
    /// That of the instance whose text the name stands in.
    Here,
    /// That of the instance with this number; 0 is all that is in no generic.
    Instance(u32),
}

/// The values from the first to the last, where both are known: outside of generics (RM 3.5).
#[derive(Clone, Copy)]
pub struct Range {
    pub first: i32,
    pub last: i32,
}

/// A static value by what it is called in a text (RM 4.9).
#[derive(Clone, Copy)]
pub enum StaticValue {
    /// A numeral, or the position number of an enumeration literal.
    Number(i32),
    /// The formal object with this place among the formals of the generic (RM 12.4).
    Formal(u32),
    /// The constant with this place among the constants of the generic: a declared one, or one that
    /// stands for a static expression with operators. So a value that is used twice is no tree that
    /// doubles.
    Constant(u32),
}

/// The values of a scalar subtype (RM 3.5).
#[derive(Clone, Copy)]
pub enum ScalarRange {
    /// Known ones.
    Known(Range),
    /// Those between two values of a generic's text, which hang on the instance.
    Between(Owner, StaticValue, StaticValue),
    /// Those of the formal type with this place among the formals of the generic (RM 12.5).
    Formal(Owner, u32),
}

/// A static expression (RM 4.9).
#[derive(Clone, Copy)]
pub enum Static {
    /// A value.
    Value(Owner, StaticValue),
    /// `First` of a scalar subtype, or of the index of an array (RM 3.5, 3.6.2).
    First(ScalarRange),
    /// `Last` of a scalar subtype, or of the index of an array (RM 3.5, 3.6.2).
    Last(ScalarRange),
    /// `Length` of an array with this index (RM 3.6.2).
    Length(ScalarRange),
    /// An operator on one value of the generic's text.
    Signed(Sign, StaticValue),
    /// An operator on two values of the generic's text.
    Operation(Operator, StaticValue, StaticValue),
}

/// A type or subtype, by whose it is (RM 3.2).
#[derive(Clone, Copy)]
pub enum Subtype {
    Scalar(ScalarRange),
    /// The composite type with this number in the table of types.
    Composite(Owner, u32),
}

/// A composite type. It is built of scalar types, and of types that stand before it in the table of types.
pub enum CompositeType {
    /// An array: the values of its index, and the type of its components (RM 3.6).
    Array(ScalarRange, Subtype),
    /// A record: the types of its components, in order (RM 3.8).
    Record(Seq<Subtype>),
}

// Written out: a derived drop is proved anew in each crate above.
impl Drop for CompositeType {
    fn drop(self) {
        match self {
            CompositeType::Array(_, _) => {}
            CompositeType::Record(_) => {}
        }
    }
}

/// A declaration of a composite type (RM 3.2.1). The layout of the type's objects is charged to it.
pub struct TypeDeclaration {
    /// The number of the generic whose text it stands in.
    pub generic: Option<u32>,
    pub definition: CompositeType,
}

// Written out: a derived drop is proved anew in each crate above.
impl Drop for TypeDeclaration {
    fn drop(self) {
        let TypeDeclaration {
            generic: _,
            definition: _,
        } = self;
    }
}

/// An operator on one integer (RM 4.5.4, 4.5.6).
#[derive(Clone, Copy)]
pub enum Sign {
    Plus,
    Minus,
    Absolute,
}

/// An operator on two integers (RM 4.5.3, 4.5.5).
#[derive(Clone, Copy)]
pub enum Operator {
    Add,
    Subtract,
    Multiply,
    Divide,
    Modulus,
    Remainder,
}

/// A relation of two values of a discrete type (RM 4.5.2).
#[derive(Clone, Copy)]
pub enum Relation {
    Equal,
    NotEqual,
    Less,
    LessOrEqual,
    Greater,
    GreaterOrEqual,
}
