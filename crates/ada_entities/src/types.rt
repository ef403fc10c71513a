//! Types and subtypes (Ada RM 2012, 3.2, 3.5, 12.5).

ghost use Rattle.std.specs.Prelude.{◌≡◌};
ghost use Rattle.ada_rules.specs.Types as rules;
ghost use Rattle.ada_tree.specs.View.{owner_of};
ghost use Rattle.ada_entities.specs.Views.{TypeTables, declared_by, identity_of, type_of, subtype_of, scalar_type_of};

use ada_tree::{Owner, Range, ScalarRange};

/// A declaration of a type or subtype: whose it is, the number of its unit, and its number among those
/// of the unit.
#[derive(Clone, Copy)]
pub struct TypeName {
    pub owner: Owner,
    pub unit: u32,
    pub number: u32,
}

/// Which type or subtype a declaration declares.
#[derive(Clone, Copy)]
pub enum Identity {
    Integer,
    Natural,
    Positive,
    Boolean,
    Declared(TypeName),
}

/// Which types a formal type stands for (RM 12.5.2).
#[derive(Clone, Copy)]
pub enum FormalKind {
    Discrete,
    Integer,
}

/// A scalar type (RM 3.5).
#[derive(Clone, Copy)]
pub enum ScalarType {
    /// An integer type (RM 3.5.4).
    Integer(Identity),
    /// An enumeration with so many literals, Boolean too (RM 3.5.1, 3.5.3).
    Enumeration(Identity, u32),
    /// The formal type with this place among the formals of the generic (RM 12.5).
    Formal(Identity, u32, FormalKind),
}

/// An array or a record (RM 3.6, 3.8), by its number in the table of types. `seen` is `Here` in the
/// text that declares it, and an instance where it is seen through that instance.
#[derive(Clone, Copy)]
pub struct Composite {
    pub identity: Identity,
    pub number: u32,
    pub seen: Owner,
}

/// A type (RM 3.2).
#[derive(Clone, Copy)]
pub enum AdaType {
    Scalar(ScalarType),
    Composite(Composite),
}

/// A subtype: a type, and of a scalar one the range of its values.
#[derive(Clone, Copy)]
pub struct Subtype {
    pub of: AdaType,
    pub range: ScalarRange,
}

/// Whether two entities are of one text, or of one instance.
fn same_owner(left: Owner, right: Owner) -> bool
    ensures { result ≡ rules.same_owner (owner_of left) (owner_of right) }
{
    match (left, right) {
        (Owner::Here, Owner::Here) => true,
        (Owner::Instance(first), Owner::Instance(second)) => first == second,
        _ => false,
    }
}

impl TypeName {
    /// Whether two declarations are one.
    fn is_same(self, other: TypeName) -> bool
        ensures { result ≡ rules.same_identity (declared_by self) (declared_by other) }
    {
        same_owner(self.owner, other.owner)
            && self.unit == other.unit
            && self.number == other.number
    }
}

impl Identity {
    /// Whether two identities are one.
    pub fn is_same(self, other: Identity) -> bool
        ensures { result ≡ rules.same_identity (identity_of self) (identity_of other) }
    {
        match (self, other) {
            (Identity::Integer, Identity::Integer)
            | (Identity::Natural, Identity::Natural)
            | (Identity::Positive, Identity::Positive)
            | (Identity::Boolean, Identity::Boolean) => true,
            (Identity::Declared(name), Identity::Declared(other)) => name.is_same(other),
            _ => false,
        }
    }
}

impl ScalarType {
    /// Which type it is.
    pub fn identity(self) -> Identity
        ensures { identity_of result ≡ rules.identity_of (scalar_type_of self) }
    {
        match self {
            ScalarType::Integer(identity)
            | ScalarType::Enumeration(identity, _)
            | ScalarType::Formal(identity, _, _) => identity,
        }
    }

    /// Whether it is an integer type.
    pub fn is_integer(self) -> bool
        ensures { result ≡ rules.is_integer (scalar_type_of self) }
    {
        matches!(
            self,
            ScalarType::Integer(_) | ScalarType::Formal(_, _, FormalKind::Integer)
        )
    }
}

impl AdaType {
    /// Boolean (RM 3.5.3).
    pub fn boolean() -> AdaType
        ensures { (k : TypeTables) → type_of k result ≡ rules.boolean_type }
    {
        AdaType::Scalar(ScalarType::Enumeration(Identity::Boolean, 2))
    }

    /// Integer (RM 3.5.4).
    pub fn integer() -> AdaType
        ensures { (k : TypeTables) → type_of k result ≡ rules.integer_type rules.integer }
    {
        AdaType::Scalar(ScalarType::Integer(Identity::Integer))
    }

    /// Which type it is.
    pub fn identity(self) -> Identity
        ensures { (k : TypeTables) → identity_of result ≡ rules.identity_of (type_of k self) }
    {
        match self {
            AdaType::Scalar(scalar) => scalar.identity(),
            AdaType::Composite(composite) => composite.identity(),
        }
    }

    /// Whether two types are one: types are distinct by declaration (RM 3.2.1).
    pub fn is_same(self, other: AdaType) -> bool
        ensures { (k : TypeTables) → result ≡ rules.same_type (type_of k self) (type_of k other) }
    {
        self.identity().is_same(other.identity())
    }

    /// Whether it is scalar (RM 3.5).
    pub fn is_scalar(self) -> bool
        ensures { (k : TypeTables) → result ≡ rules.is_scalar (type_of k self) }
    {
        matches!(self, AdaType::Scalar(_))
    }

    /// Whether it is an integer type.
    pub fn is_integer(self) -> bool
        ensures { (k : TypeTables) → result ≡ rules.is_integer (type_of k self) }
    {
        match self {
            AdaType::Scalar(scalar) => scalar.is_integer(),
            AdaType::Composite(_) => false,
        }
    }
}

impl Subtype {
    /// Integer, with all values of its type.
    pub fn integer() -> Subtype
        ensures { (k : TypeTables) → subtype_of k result ≡ rules.integer_subtype }
    {
        let base = Range {
            first: i32::MIN,
            last: i32::MAX,
        };
        Subtype {
            of: AdaType::integer(),
            range: ScalarRange::Known(base),
        }
    }

    /// Boolean, with both values.
    pub fn boolean() -> Subtype
        ensures { (k : TypeTables) → subtype_of k result ≡ rules.boolean_subtype }
    {
        Subtype {
            of: AdaType::boolean(),
            range: ScalarRange::Known(Range { first: 0, last: 1 }),
        }
    }
}
