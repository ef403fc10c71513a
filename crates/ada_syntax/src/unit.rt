//! Subprograms, packages, generics and library units (Ada RM 2012, 6, 7, 10.1, 12).

use crate::declaration::Declaration;
use crate::expr::Expr;
use crate::name::{Identifier, Name};
use crate::statement::HandledStatements;
use cov_base::{Pos, Seq};

/// The mode of a parameter (RM 6.2).
#[derive(Clone, Copy, PartialEq, Eq)]
pub enum Mode {
    /// No mode is written, which means `in`.
    Default,
    In,
    Out,
    InOut,
}

/// `id {, id} : [IN | OUT | IN OUT] name` (RM 6.1).
pub struct Parameter {
    pub names: Seq<Identifier>,
    pub mode: Mode,
    pub mark: Name,
}

// Written out: a derived drop is proved anew in each crate above.
impl Drop for Parameter {
    fn drop(self) {
        let Parameter {
            names: _,
            mode: _,
            mark: _,
        } = self;
    }
}

/// `PROCEDURE id [params] | FUNCTION id [params] RETURN name` (RM 6.1), and the place of its first
/// token. A function has a result.
pub struct Specification {
    pub pos: Pos,
    pub name: Identifier,
    pub parameters: Seq<Parameter>,
    pub result_mark: Option<Name>,
}

// Written out: a derived drop is proved anew in each crate above.
impl Drop for Specification {
    fn drop(self) {
        let Specification {
            pos: _,
            name: _,
            parameters: _,
            result_mark: _,
        } = self;
    }
}

/// `spec IS {ldecl} BEGIN stmts [handlers] END [id] ;` (RM 6.3).
pub struct SubprogramBody {
    pub specification: Specification,
    pub declarations: Seq<Declaration>,
    pub statements: HandledStatements,
    pub end_name: Option<Identifier>,
}

// Written out: a derived drop is proved anew in each crate above.
impl Drop for SubprogramBody {
    fn drop(self) {
        let SubprogramBody {
            specification: _,
            declarations: _,
            statements: _,
            end_name: _,
        } = self;
    }
}

/// A declaration in a package (RM 7.1).
pub enum PackageItem {
    Declaration(Declaration),
    /// `spec ;`
    Subprogram(Specification),
}

// Written out: a derived drop is proved anew in each crate above.
impl Drop for PackageItem {
    fn drop(self) {
        match self {
            PackageItem::Declaration(_) => {}
            PackageItem::Subprogram(_) => {}
        }
    }
}

/// What stands in a package body (RM 7.2).
pub enum BodyItem {
    Declared(PackageItem),
    Body(SubprogramBody),
}

// Written out: a derived drop is proved anew in each crate above.
impl Drop for BodyItem {
    fn drop(self) {
        match self {
            BodyItem::Declared(_) => {}
            BodyItem::Body(_) => {}
        }
    }
}

/// A formal parameter of a generic package, and the place of its first token (RM 12.1).
pub struct Formal {
    pub pos: Pos,
    pub kind: FormalKind,
}

// Written out: a derived drop is proved anew in each crate above.
impl Drop for Formal {
    fn drop(self) {
        let Formal { pos: _, kind: _ } = self;
    }
}

/// The forms of a formal parameter (RM 12.4 to 12.6).
pub enum FormalKind {
    /// `TYPE id IS ( <> ) ;`
    DiscreteType(Identifier),
    /// `TYPE id IS RANGE <> ;`
    IntegerType(Identifier),
    /// `id : [IN] name ;`. The mode is `Default` or `In`.
    Object(Identifier, Mode, Name),
    /// `WITH spec ;`
    Subprogram(Specification),
}

// Written out: a derived drop is proved anew in each crate above.
impl Drop for FormalKind {
    fn drop(self) {
        match self {
            FormalKind::DiscreteType(_) => {}
            FormalKind::IntegerType(_) => {}
            FormalKind::Object(_, _, _) => {}
            FormalKind::Subprogram(_) => {}
        }
    }
}

/// `[GENERIC {formal}] PACKAGE id IS {decl} END [id] ;` (RM 7.1, 12.1).
pub struct PackageSpecification {
    /// The formal parameters, where the package is generic.
    pub formals: Option<Seq<Formal>>,
    pub name: Identifier,
    pub items: Seq<PackageItem>,
    pub end_name: Option<Identifier>,
}

// Written out: a derived drop is proved anew in each crate above.
impl Drop for PackageSpecification {
    fn drop(self) {
        let PackageSpecification {
            formals: _,
            name: _,
            items: _,
            end_name: _,
        } = self;
    }
}

/// `PACKAGE BODY id IS {decl | body} END [id] ;` (RM 7.2).
pub struct PackageBody {
    pub name: Identifier,
    pub items: Seq<BodyItem>,
    pub end_name: Option<Identifier>,
}

// Written out: a derived drop is proved anew in each crate above.
impl Drop for PackageBody {
    fn drop(self) {
        let PackageBody {
            name: _,
            items: _,
            end_name: _,
        } = self;
    }
}

/// `PACKAGE id IS NEW id [( expr {, expr} )] ;` (RM 12.3). Without parentheses there is no actual.
pub struct Instance {
    pub name: Identifier,
    pub generic_name: Identifier,
    pub actuals: Seq<Expr>,
}

// Written out: a derived drop is proved anew in each crate above.
impl Drop for Instance {
    fn drop(self) {
        let Instance {
            name: _,
            generic_name: _,
            actuals: _,
        } = self;
    }
}

/// What a library unit declares.
pub enum LibraryItem {
    Package(PackageSpecification),
    PackageBody(PackageBody),
    Instance(Instance),
    Subprogram(SubprogramBody),
}

// Written out: a derived drop is proved anew in each crate above.
impl Drop for LibraryItem {
    fn drop(self) {
        match self {
            LibraryItem::Package(_) => {}
            LibraryItem::PackageBody(_) => {}
            LibraryItem::Instance(_) => {}
            LibraryItem::Subprogram(_) => {}
        }
    }
}

/// `WITH id {, id} ;` (RM 10.1.2).
pub struct WithClause {
    pub names: Seq<Identifier>,
}

// Written out: a derived drop is proved anew in each crate above.
impl Drop for WithClause {
    fn drop(self) {
        let WithClause { names: _ } = self;
    }
}

/// A library unit with its context clauses (RM 10.1.1).
pub struct Unit {
    /// The place of its first token.
    pub pos: Pos,
    pub withs: Seq<WithClause>,
    /// The place of the item's first token.
    pub item_pos: Pos,
    pub item: LibraryItem,
}

// Written out: a derived drop is proved anew in each crate above.
impl Drop for Unit {
    fn drop(self) {
        let Unit {
            pos: _,
            withs: _,
            item_pos: _,
            item: _,
        } = self;
    }
}
