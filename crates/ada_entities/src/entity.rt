//! What names denote (Ada RM 2012, 3.1, 3.3, 6.1, 11.1, 12.4).

use crate::types::{AdaType, Identity, Subtype};
use ada_tree::{ExceptionName, Object, Owner, ScalarRange, StaticValue};

/// The static value of a constant: whose it is, and its value in that text. A constant whose initial
/// value does not lie in its subtype has none.
#[derive(Clone, Copy)]
pub struct ConstantValue {
    pub owner: Owner,
    pub value: Option<StaticValue>,
}

/// The values that a case statement on an object or on a call names (RM 5.4).
#[derive(Clone, Copy)]
pub enum Values {
    Within(ScalarRange),
    /// Those of the type that an instance has for the formal type at this place.
    OfFormalType(u32),
    /// Those of the result of the subprogram that an instance has for the formal one at this place.
    OfFormalResult(u32),
    /// Those with this number in the table of values: of a loop parameter with bounds.
    Listed(u32),
}

/// Whether an object may be assigned (RM 3.3).
#[derive(Clone, Copy)]
pub enum Access {
    Constant,
    Variable,
}

/// An object (RM 3.3.1).
#[derive(Clone, Copy)]
pub struct DeclaredObject {
    pub object: Object,
    pub subtype: Subtype,
    pub access: Access,
    pub known: Option<ConstantValue>,
    pub values: Values,
}

/// Whether a subprogram of a package still waits for its body (RM 6.3).
#[derive(Clone, Copy)]
pub enum Completion {
    AwaitsBody,
    Complete,
}

/// A subprogram (RM 6.1), by its number in the table of subprograms. `seen` is `Here` in the text that
/// declares it, and an instance where it is seen through that instance.
#[derive(Clone, Copy)]
pub struct RoutineName {
    pub number: u32,
    pub seen: Owner,
    pub completion: Completion,
}

/// What a name denotes.
#[derive(Clone, Copy)]
pub enum Entity {
    /// Nothing: its own declaration has begun, and hides what it denoted outside (RM 8.3).
    Hidden,
    /// A type or subtype.
    Mark(Identity, Subtype),
    /// An enumeration literal, by its position number (RM 3.5.1).
    Literal(AdaType, i32),
    Object(DeclaredObject),
    /// A formal object, whose value is static, by whose it is (RM 12.4).
    FormalObject(Subtype, Owner, StaticValue),
    Routine(RoutineName),
    Exception(ExceptionName),
    /// A component, in the rest of its record's declaration.
    Component,
    TestIo,
    /// A package, a generic or an instance, by the number of its unit.
    Unit(u32),
}
