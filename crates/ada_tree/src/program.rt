//! Programs (Ada RM 2012, 6.1, 6.3, 7, 10.1, 11.1, 12).

use crate::statement::Block;
use crate::types::{Owner, Range, ScalarRange, Static, Subtype, TypeDeclaration};
use cov_base::{Bytes, Pos, Seq};

/// The mode of a parameter (RM 6.2).
#[derive(Clone, Copy)]
pub enum Mode {
    In,
    Out,
    InOut,
}

/// A parameter (RM 6.1), by its number among the objects of its subprogram.
#[derive(Clone, Copy)]
pub struct Parameter {
    pub number: u32,
    pub mode: Mode,
    pub subtype: Subtype,
}

/// What the limits ask of a subprogram's body: the place of its first token, and its weight. That is how
/// many of its tokens count as nodes.
#[derive(Clone, Copy)]
pub struct BodyEntry {
    pub pos: Pos,
    pub nodes: u32,
}

/// A subprogram with its body (RM 6.3).
pub struct Subprogram {
    /// The number of the generic whose text it stands in.
    pub generic: Option<u32>,
    pub entry: BodyEntry,
    pub parameters: Seq<Parameter>,
    /// The subtypes of its objects by their numbers: those of its parameters, then of what its body
    /// declares, loop parameters among them, in the order of the text.
    pub objects: Seq<Subtype>,
    pub body: Block,
}

// Written out: a derived drop is proved anew in each crate above.
impl Drop for Subprogram {
    fn drop(self) {
        let Subprogram {
            generic: _,
            entry: _,
            parameters: _,
            objects: _,
            body: _,
        } = self;
    }
}

/// The initial value of an object of the library level (RM 3.3.1).
#[derive(Clone, Copy)]
pub enum Initial {
    None,
    /// A static expression, in so many `(others => ..)`.
    Static(u32, Static),
}

/// An object that is declared in a package (RM 7.1), by the number of its declaration.
#[derive(Clone, Copy)]
pub struct LibraryObject {
    pub declaration: u32,
    /// The number of the generic whose text it stands in.
    pub generic: Option<u32>,
    pub subtype: Subtype,
    pub initial: Initial,
}

/// A constant of a generic with a static initial expression (RM 3.3.1, 4.9), which names only constants
/// of the generic that stand before it, and the values of its subtype.
#[derive(Clone, Copy)]
pub struct GenericConstant {
    /// The number of the generic whose text it stands in.
    pub generic: u32,
    pub value: Static,
    pub range: ScalarRange,
}

/// What a formal subprogram comes to (RM 12.6).
#[derive(Clone, Copy)]
pub enum Target {
    TestGet,
    TestPut,
    /// The subprogram with the second number, in the instance with the first one.
    Body(u32, u32),
}

/// What an instance has for a formal (RM 12.3).
#[derive(Clone, Copy)]
pub enum FormalActual {
    /// For a formal object: the static expression, and its value.
    Object(Static, i32),
    /// For a formal type: the subtype, its values, and those of its type.
    Type(ScalarRange, Range, Range),
    /// For a formal subprogram.
    Subprogram(Target),
}

/// An instance (RM 12.3).
pub struct Instance {
    /// The name in lower case.
    pub name: Bytes,
    /// The place of its `package`.
    pub place: Pos,
    /// The number of its generic.
    pub generic: u32,
    /// What it has for the formals, in order.
    pub actuals: Seq<FormalActual>,
    /// The values of its generic's constants, in order: none where a constant has no static value here.
    pub constants: Seq<Option<i32>>,
}

// Written out: a derived drop is proved anew in each crate above.
impl Drop for Instance {
    fn drop(self) {
        let Instance {
            name: _,
            place: _,
            generic: _,
            actuals: _,
            constants: _,
        } = self;
    }
}

/// A declaration of an exception (RM 11.1).
pub struct ExceptionDeclaration {
    pub declaration: u32,
    pub place: Pos,
    /// The number of the generic whose text it stands in.
    pub generic: Option<u32>,
    /// The name of the unit that it stands in, in lower case.
    pub unit: Bytes,
    /// What comes after the unit's name and a point, in lower case.
    pub name: Bytes,
}

// Written out: a derived drop is proved anew in each crate above.
impl Drop for ExceptionDeclaration {
    fn drop(self) {
        let ExceptionDeclaration {
            declaration: _,
            place: _,
            generic: _,
            unit: _,
            name: _,
        } = self;
    }
}

/// An exception: a declaration in an instance, which is 0 in no generic.
#[derive(Clone, Copy)]
pub struct Raisable {
    pub instance: u32,
    pub declaration: u32,
}

/// How often the text of a library unit counts (RM 12.3).
#[derive(Clone, Copy)]
pub enum UnitRole {
    /// Once.
    Once,
    /// Once for each instance of this generic: its specification or its body.
    OfGeneric(u32),
    /// Once, with the text of this generic: an instance of it.
    InstanceOf(u32),
}

/// What the limits ask of a library unit: the place of its first token, and its weight. That is how many
/// of its tokens count as nodes; those of its bodies and of the declarations of its types are among them.
#[derive(Clone, Copy)]
pub struct UnitEntry {
    pub pos: Pos,
    pub nodes: u32,
    pub role: UnitRole,
}

/// A program. Subprograms are numbered by their places from 0, and so are composite types and the
/// constants of each generic; instances are numbered from 1. The numbers of declared exceptions are
/// their places among `exceptions`, from 5 on.
pub struct Program {
    pub subprograms: Seq<Subprogram>,
    /// The number of the main procedure.
    pub main: u32,
    pub types: Seq<TypeDeclaration>,
    pub objects: Seq<LibraryObject>,
    pub constants: Seq<GenericConstant>,
    pub instances: Seq<Instance>,
    pub declared: Seq<ExceptionDeclaration>,
    pub exceptions: Seq<Raisable>,
    /// The library units, in the order of the files.
    pub units: Seq<UnitEntry>,
}

// Written out: a derived drop is proved anew in each crate above.
impl Drop for Program {
    fn drop(self) {
        let Program {
            subprograms: _,
            main: _,
            types: _,
            objects: _,
            constants: _,
            instances: _,
            declared: _,
            exceptions: _,
            units: _,
        } = self;
    }
}
