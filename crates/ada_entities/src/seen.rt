//! Entities of a generic's text as they are seen through an instance (Ada RM 2012, 12.3).

ghost use Rattle.std.specs.Prelude.{◌≡◌, Some, option_map};
ghost use Rattle.ada_rules.specs.ada_meaning.specs.Seen.{range_seen};
ghost use Rattle.ada_rules.specs.ada_meaning.specs.Types.{of_instance};
ghost use Rattle.ada_rules.specs.Entities as rules;
ghost use Rattle.ada_tree.specs.View.{owner_of, scalar_range_of, object_of, exception_of};
ghost use Rattle.ada_entities.specs.Views.{TypeTables, type_by, composite_of, identity_by, identity_of, scalar_type_of, given_of};
ghost use Rattle.ada_entities.specs.TypeTable.{tables};
ghost use Rattle.ada_entities.specs.EntityViews.{Tables, constant_of, routine_by, routine_of};
ghost use Rattle.ada_entities.specs.SeenEntities.{IsSeenObject, IsSeen};

use crate::composite::Types;
use crate::entity::{Completion, ConstantValue, DeclaredObject, Entity, RoutineName, Values};
use crate::types::{Composite, Identity, ScalarType, TypeName};
use ada_tree::{ExceptionName, Object, Owner, ScalarRange, StaticValue};

/// Whose an entity is.
pub fn owner_seen(owner: Owner, instance: u32) -> Owner
    ensures { owner_of result ≡ rules.owner_seen instance (owner_of owner) }
{
    match owner {
        Owner::Here => Owner::Instance(instance),
        Owner::Instance(_) => owner,
    }
}

/// The values of a scalar subtype.
pub fn range_seen(range: ScalarRange, instance: u32) -> ScalarRange
    ensures { scalar_range_of result ≡ range_seen instance (scalar_range_of range) }
{
    match range {
        ScalarRange::Known(known) => ScalarRange::Between(
            Owner::Instance(instance),
            StaticValue::Number(known.first),
            StaticValue::Number(known.last),
        ),
        ScalarRange::Between(owner, first, last) => {
            ScalarRange::Between(owner_seen(owner, instance), first, last)
        }
        ScalarRange::Formal(owner, place) => {
            ScalarRange::Formal(owner_seen(owner, instance), place)
        }
    }
}

impl Identity {
    /// Which type or subtype it is.
    pub fn seen(self, instance: u32) -> Identity
        ensures { identity_of result ≡ rules.identity_seen instance (identity_of self) }
    {
        match self {
            Identity::Declared(name) => Identity::Declared(TypeName {
                owner: owner_seen(name.owner, instance),
                ..name
            }),
            _ => self,
        }
    }

    /// That of a type which an instance has for a formal one: it stands in no generic's text.
    fn of_actual(self) -> Identity
        ensures { identity_of result ≡ rules.own_identity (identity_of self) }
    {
        match self {
            Identity::Declared(
                TypeName {
                    owner: Owner::Here,
                    unit,
                    number,
                },
            ) => Identity::Declared(TypeName {
                owner: Owner::Instance(0),
                unit,
                number,
            }),
            _ => self,
        }
    }
}

impl ScalarType {
    /// As what an instance has for a formal type: an integer type or an enumeration.
    fn of_actual(self) -> ScalarType
        ensures { scalar_type_of result ≡ rules.given_type (Some (given_of (Some self))) }
    {
        match self {
            ScalarType::Integer(identity) => ScalarType::Integer(identity.of_actual()),
            ScalarType::Enumeration(identity, count) => {
                ScalarType::Enumeration(identity.of_actual(), count)
            }
            ScalarType::Formal(_, _, _) => ScalarType::Integer(Identity::Integer),
        }
    }

    /// What an instance has for a formal type (RM 12.5).
    pub fn given(actual: Option<ScalarType>) -> ScalarType
        ensures { scalar_type_of result ≡ rules.given_type (Some (given_of actual)) }
    {
        match actual {
            Some(actual) => actual.of_actual(),
            None => ScalarType::Integer(Identity::Integer),
        }
    }
}

impl Composite {
    /// Which type it is.
    pub fn identity(self) -> Identity
        ensures { identity_of result ≡ identity_by (owner_of self.seen) (identity_of self.identity) }
    {
        match self.seen {
            Owner::Here => self.identity,
            Owner::Instance(instance) => self.identity.seen(instance),
        }
    }

    /// The type.
    pub fn seen(self, instance: u32) -> Composite
        ensures { (k : TypeTables) → composite_of k result ≡ type_by k (of_instance instance) (composite_of k self) }
    {
        Composite {
            seen: owner_seen(self.seen, instance),
            ..self
        }
    }
}

/// An object, by its declaration.
fn object_seen(object: Object, instance: u32) -> Object
    ensures { object_of result ≡ rules.object_seen instance (object_of object) }
{
    match object {
        Object::Library(owner, number) => Object::Library(owner_seen(owner, instance), number),
        Object::Local(_) => object,
    }
}

/// An exception.
fn exception_seen(exception: ExceptionName, instance: u32) -> ExceptionName
    ensures { exception_of result ≡ rules.exception_seen instance (exception_of exception) }
{
    match exception {
        ExceptionName::Declared(owner, number) => {
            ExceptionName::Declared(owner_seen(owner, instance), number)
        }
        ExceptionName::Predefined(_) => exception,
    }
}

impl ConstantValue {
    /// The static value.
    fn seen(self, instance: u32) -> ConstantValue
        ensures { constant_of result ≡ rules.static_seen instance (constant_of self) }
    {
        ConstantValue {
            owner: owner_seen(self.owner, instance),
            ..self
        }
    }

    /// The static value, where there is one.
    fn known_seen(known: Option<ConstantValue>, instance: u32) -> Option<ConstantValue>
        ensures { option_map constant_of result ≡ option_map (rules.static_seen instance) (option_map constant_of known) }
    {
        match known {
            Some(value) => Some(value.seen(instance)),
            None => None,
        }
    }
}

impl RoutineName {
    /// The subprogram.
    fn seen(self, instance: u32) -> RoutineName
        ensures { (k : Tables) → routine_of k result ≡ routine_by k (of_instance instance) (routine_of k self) }
    {
        RoutineName {
            number: self.number,
            seen: owner_seen(self.seen, instance),
            completion: Completion::Complete,
        }
    }
}

impl DeclaredObject {
    /// The object.
    fn seen(self, types: &Types, instance: u32) -> DeclaredObject
        ensures { IsSeenObject instance (tables types.now) self result }
    {
        let subtype = types.subtype_seen(self.subtype, instance);
        DeclaredObject {
            object: object_seen(self.object, instance),
            subtype,
            access: self.access,
            known: ConstantValue::known_seen(self.known, instance),
            values: Values::Within(subtype.range),
        }
    }
}

impl Entity {
    /// What a name denotes.
    pub fn seen(self, types: &Types, instance: u32) -> Entity
        ensures { IsSeen instance (tables types.now) self result }
    {
        match self {
            Entity::Mark(identity, subtype) => Entity::Mark(
                identity.seen(instance),
                types.subtype_seen(subtype, instance),
            ),
            Entity::Literal(of, position) => {
                Entity::Literal(types.type_seen(of, instance), position)
            }
            Entity::Object(object) => Entity::Object(object.seen(types, instance)),
            Entity::FormalObject(subtype, owner, value) => Entity::FormalObject(
                types.subtype_seen(subtype, instance),
                owner_seen(owner, instance),
                value,
            ),
            Entity::Routine(routine) => Entity::Routine(routine.seen(instance)),
            Entity::Exception(exception) => Entity::Exception(exception_seen(exception, instance)),
            Entity::Hidden | Entity::Component | Entity::TestIo | Entity::Unit(_) => self,
        }
    }
}
