//! Declarations of types, objects and exceptions (Ada RM 2012, 3, 11.1), and pragmas.

use crate::expr::Expr;
use crate::name::{Identifier, Name};
use cov_base::{Bytes, Pos, Seq};

/// `simple .. simple`: the bounds of a range (RM 3.5).
pub struct Bounds {
    pub low: Expr,
    pub high: Expr,
}

// Written out: a derived drop is proved anew in each crate above.
impl Drop for Bounds {
    fn drop(self) {
        let Bounds { low: _, high: _ } = self;
    }
}

/// `name | simple .. simple`: the range of an index or of a loop parameter (RM 3.6.1).
pub enum DiscreteRange {
    Mark(Name),
    Bounds(Bounds),
}

// Written out: a derived drop is proved anew in each crate above.
impl Drop for DiscreteRange {
    fn drop(self) {
        match self {
            DiscreteRange::Mark(_) => {}
            DiscreteRange::Bounds(_) => {}
        }
    }
}

/// `name [RANGE simple .. simple]` (RM 3.2.2).
pub struct SubtypeIndication {
    pub mark: Name,
    pub constraint: Option<Bounds>,
}

// Written out: a derived drop is proved anew in each crate above.
impl Drop for SubtypeIndication {
    fn drop(self) {
        let SubtypeIndication {
            mark: _,
            constraint: _,
        } = self;
    }
}

/// An initial value or what is assigned: an expression, in any number of `( OTHERS => .. )`
/// (RM 4.3.3).
pub struct Initial {
    /// The place of each `(` before an `others`, the outermost first.
    pub others: Seq<Pos>,
    pub value: Expr,
}

// Written out: a derived drop is proved anew in each crate above.
impl Drop for Initial {
    fn drop(self) {
        let Initial {
            others: _,
            value: _,
        } = self;
    }
}

/// What a type declaration defines (RM 3.5.1, 3.5.4, 3.6, 3.8).
pub enum TypeDefinition {
    /// `RANGE simple .. simple`
    Integer(Bounds),
    /// `( id {, id} )`
    Enumeration(Seq<Identifier>),
    /// `ARRAY ( range ) OF sub`
    Array(DiscreteRange, SubtypeIndication),
    /// `RECORD comp {comp} END RECORD`
    Record(Seq<Component>),
}

// Written out: a derived drop is proved anew in each crate above.
impl Drop for TypeDefinition {
    fn drop(self) {
        match self {
            TypeDefinition::Integer(_) => {}
            TypeDefinition::Enumeration(_) => {}
            TypeDefinition::Array(_, _) => {}
            TypeDefinition::Record(_) => {}
        }
    }
}

/// `id {, id} : sub ;` in a record (RM 3.8).
pub struct Component {
    pub names: Seq<Identifier>,
    pub indication: SubtypeIndication,
}

// Written out: a derived drop is proved anew in each crate above.
impl Drop for Component {
    fn drop(self) {
        let Component {
            names: _,
            indication: _,
        } = self;
    }
}

/// Whether an object may be assigned (RM 3.3.1).
#[derive(Clone, Copy, PartialEq, Eq)]
pub enum Constancy {
    Variable,
    /// With the word `constant`.
    Constant,
}

/// A declaration, and the place of its first token.
pub struct Declaration {
    pub pos: Pos,
    pub kind: DeclarationKind,
}

// Written out: a derived drop is proved anew in each crate above.
impl Drop for Declaration {
    fn drop(self) {
        let Declaration { pos: _, kind: _ } = self;
    }
}

/// The declarations that may stand in a subprogram or a block.
pub enum DeclarationKind {
    /// `TYPE id IS typedef ;`
    Type(Identifier, TypeDefinition),
    /// `SUBTYPE id IS sub ;`
    Subtype(Identifier, SubtypeIndication),
    /// `id {, id} : [CONSTANT] sub [:= init] ;`
    Object(Seq<Identifier>, Constancy, SubtypeIndication, Option<Initial>),
    /// `id {, id} : EXCEPTION ;`
    Exception(Seq<Identifier>),
    /// A pragma.
    Pragma(Pragma),
}

// Written out: a derived drop is proved anew in each crate above.
impl Drop for DeclarationKind {
    fn drop(self) {
        match self {
            DeclarationKind::Type(_, _) => {}
            DeclarationKind::Subtype(_, _) => {}
            DeclarationKind::Object(_, _, _, _) => {}
            DeclarationKind::Exception(_) => {}
            DeclarationKind::Pragma(_) => {}
        }
    }
}

/// The two pragmas by which lines are exempted from coverage.
pub enum Pragma {
    /// `PRAGMA Annotate ( Xcov , Exempt_On , string ) ;`, with the string literal as it is spelled.
    ExemptOn(Bytes),
    /// `PRAGMA Annotate ( Xcov , Exempt_Off ) ;`
    ExemptOff,
}

// Written out: a derived drop is proved anew in each crate above.
impl Drop for Pragma {
    fn drop(self) {
        match self {
            Pragma::ExemptOn(_) => {}
            Pragma::ExemptOff => {}
        }
    }
}
