//! The table of composite types, and what instances have for formal types (Ada RM 2012, 3.6, 3.8,
//! 12.3).

ghost use Rattle.std.specs.Prelude.{◌≡◌, length, map, None, Some, option_map, slice_get, OnOk, IfOk};
ghost use Rattle.ada_rules.specs.ada_meaning.specs.Types.{of_instance};
ghost use Rattle.ada_tree.specs.View.{owner_of};
ghost use Rattle.ada_rules.specs.Entities.{given_type};
ghost use Rattle.ada_rules.specs.Denoted.{field_among};
ghost use Rattle.ada_entities.specs.Views.{TypeTables, actuals_of, shape_at, given_of, is_made, is_known, is_known_owner, scalar_type_of, type_of, type_by, subtype_of, subtype_by};
ghost use Rattle.ada_entities.specs.Tables.{shape_of, are_known, is_earlier, is_vacant, no_tables, with_shape, with_instance, fields_of, array_parts, parts_of, field_in, field_of, shape_from, shape_parts, shape_fields, AreDefinitions, AreSeenParts, IsSeenField};
ghost use Rattle.ada_entities.specs.TypeTable.{tables};

use crate::composite::{Component, Definition, Types};
use crate::seen::range_seen;
use crate::types::{AdaType, ScalarType, Subtype};
use ada_tree::Owner;
use cov_base::{Seq, numbered};
use std::alloc::{AllocError, Global};

/// Whether an instance was made.
fn is_made(instances: &[Option<Seq<Option<ScalarType>>>], instance: u32) -> bool
    ensures { result ≡ is_made instances.now instance }
{
    match instances.get(instance as usize) {
        Some(made) => made.is_some(),
        None => false,
    }
}

/// Whether an instance has a place, and was not made.
fn is_vacant(instances: &[Option<Seq<Option<ScalarType>>>], instance: u32) -> bool
    ensures { result ≡ is_vacant (slice_get instances.now instance) }
{
    match instances.get(instance as usize) {
        Some(made) => made.is_none(),
        None => false,
    }
}

/// Whether an owner is an instance that was made, or none.
fn is_known_owner(owner: Owner, instances: &[Option<Seq<Option<ScalarType>>>]) -> bool
    ensures { result ≡ is_known_owner (is_made instances.now) (owner_of owner) }
{
    match owner {
        Owner::Here => true,
        Owner::Instance(instance) => is_made(instances, instance),
    }
}

/// Whether a type leads only to so many types, and to instances that were made.
fn is_known(types: usize, instances: &[Option<Seq<Option<ScalarType>>>], of: AdaType) -> bool
    ensures { result ≡ is_known types (is_made instances.now) of }
{
    match of {
        AdaType::Scalar(_) => true,
        AdaType::Composite(composite) => {
            (composite.number as usize) < types && is_known_owner(composite.seen, instances)
        }
    }
}

/// Whether all components lead only to so many types, and to instances that were made.
fn are_known(
    types: usize,
    instances: &[Option<Seq<Option<ScalarType>>>],
    components: &[Component],
) -> bool
    ensures { result ≡ are_known types (is_made instances.now) components.now }
{
    components.iter().all(|component| is_known(types, instances, component.subtype.of))
}

/// Whether a definition leads only to so many types, and to instances that were made.
fn is_earlier(
    types: usize,
    instances: &[Option<Seq<Option<ScalarType>>>],
    definition: &Definition,
) -> bool
    ensures { result ≡ is_earlier (is_made instances.now) types definition.now }
{
    match definition {
        Definition::Array(index, component) => {
            is_known(types, instances, index.of) && is_known(types, instances, component.of)
        }
        Definition::Record(components) => are_known(types, instances, components.as_slice()),
    }
}

impl Types {
    /// No types, and no instance but number 0, with places for so many others.
    pub fn new(alloc: Global, others: usize) -> Result<Types, AllocError>
        ensures { IfOk result (λ t. tables t ≡ no_tables others) }
    {
        let mut instances = Vec::new(alloc);
        instances.push(Some(Seq::from(Vec::new(alloc))))?;
        for _ in 0..others {
            instances.push(None)?;
        }
        Ok(Types {
            definitions: Vec::new(alloc),
            instances,
        })
    }

    /// Adds a composite type, and answers its number. One that is built of a type which is not in the
    /// table is not added, and has no memory either.
    pub fn add(&mut self, definition: Definition) -> Result<u32, AllocError>
        ensures number { IfOk result (λ n. n ≡ length (tables self.old).shapes) }
        ensures added { OnOk result (let k = tables self.old in tables self.new ≡ with_shape k (shape_of k definition)) }
    {
        let types = self.definitions.as_slice().len();
        let number = numbered(types)?;
        if !is_earlier(types, self.instances.as_slice(), &definition) {
            return Err(AllocError);
        }
        self.definitions.push(definition)?;
        Ok(number)
    }

    /// Makes the instance with this number, by what it has for the formal types. One that was made, or has
    /// no place, has no memory either.
    pub fn add_instance(
        &mut self,
        number: u32,
        given: Seq<Option<ScalarType>>,
    ) -> Result<(), AllocError>
        ensures vacant { OnOk result (slice_get (tables self.old).instances number ≡ Some None) }
        ensures made { OnOk result (tables self.new ≡ with_instance (tables self.old) number (map given_of given)) }
    {
        if !is_vacant(self.instances.as_slice(), number) {
            return Err(AllocError);
        }
        let Some(place) = self.instances.get_mut(number as usize) else {
            return Err(AllocError);
        };
        *place = Some(given);
        Ok(())
    }
}

impl Types {
    /// The definitions of all composite types, by their numbers.
    pub fn definitions(&self) -> &[Definition]
        ensures { AreDefinitions (tables self.now) result.now }
    {
        self.definitions.as_slice()
    }

    /// The definition with a number.
    fn definition(&self, number: u32) -> Option<&Definition>
        ensures { shape_at (tables self.now) number ≡ shape_from (tables self.now) result }
    {
        self.definitions.get(number as usize)
    }

    /// A scalar type as it is seen through an instance.
    fn scalar_seen(&self, of: ScalarType, instance: u32) -> ScalarType
        ensures { scalar_type_of result ≡ type_by (tables self.now) (of_instance instance) (scalar_type_of of) }
    {
        match of {
            ScalarType::Integer(identity) => ScalarType::Integer(identity.seen(instance)),
            ScalarType::Enumeration(identity, count) => {
                ScalarType::Enumeration(identity.seen(instance), count)
            }
            ScalarType::Formal(_, place, _) => self.given(instance, place),
        }
    }

    /// What an instance has for the formal type at this place.
    fn given(&self, instance: u32, place: u32) -> ScalarType
        ensures { scalar_type_of result ≡ given_type (slice_get (actuals_of (tables self.now) instance) place) }
    {
        match self.instances.get(instance as usize) {
            Some(Some(given)) => given_at(given.as_slice(), place),
            _ => ScalarType::given(None),
        }
    }

    /// A type as it is seen through an instance (RM 12.3).
    pub fn type_seen(&self, of: AdaType, instance: u32) -> AdaType
        ensures { let k = tables self.now in type_of k result ≡ type_by k (of_instance instance) (type_of k of) }
    {
        match of {
            AdaType::Scalar(scalar) => AdaType::Scalar(self.scalar_seen(scalar, instance)),
            AdaType::Composite(composite) => AdaType::Composite(composite.seen(instance)),
        }
    }

    /// A subtype as it is seen through an instance (RM 12.3).
    pub fn subtype_seen(&self, subtype: Subtype, instance: u32) -> Subtype
        ensures { let k = tables self.now in subtype_of k result ≡ subtype_by k (of_instance instance) (subtype_of k subtype) }
    {
        Subtype {
            of: self.type_seen(subtype.of, instance),
            range: range_seen(subtype.range, instance),
        }
    }

    /// A subtype of a definition as its type is seen.
    fn part_seen(&self, subtype: Subtype, seen: Owner) -> Subtype
        ensures { let k = tables self.now in subtype_of k result ≡ subtype_by k (owner_of seen) (subtype_of k subtype) }
    {
        match seen {
            Owner::Here => subtype,
            Owner::Instance(instance) => self.subtype_seen(subtype, instance),
        }
    }

    /// The parts of an array as its type is seen.
    fn parts_seen(
        &self,
        parts: Option<(Subtype, Subtype)>,
        seen: Owner,
    ) -> Option<(Subtype, Subtype)>
        ensures { AreSeenParts (tables self.now) (owner_of seen) parts result }
    {
        match parts {
            Some((index, component)) => Some((
                self.part_seen(index, seen),
                self.part_seen(component, seen),
            )),
            None => None,
        }
    }

    /// A component as the type of its record is seen.
    fn component_seen(
        &self,
        component: Option<(usize, Subtype)>,
        seen: Owner,
    ) -> Option<(usize, Subtype)>
        ensures { IsSeenField (tables self.now) (owner_of seen) component result }
    {
        match component {
            Some((place, subtype)) => Some((place, self.part_seen(subtype, seen))),
            None => None,
        }
    }

    /// The subtypes of the index and of the components, of an array (RM 3.6).
    pub fn array_of(&self, of: AdaType) -> Option<(Subtype, Subtype)>
        ensures { option_map (parts_of (tables self.now)) result ≡ array_parts (type_of (tables self.now) of) }
    {
        match of {
            AdaType::Scalar(_) => None,
            AdaType::Composite(composite) => {
                let parts = array_definition(self.definition(composite.number));
                self.parts_seen(parts, composite.seen)
            }
        }
    }

    /// The component of a record with this name, in lower case, and its place among the components
    /// (RM 4.1.3).
    pub fn component_of(&self, of: AdaType, name: &[u8]) -> Option<(usize, Subtype)>
        ensures { option_map (field_of (tables self.now)) result ≡ field_in name.now (type_of (tables self.now) of) }
    {
        match of {
            AdaType::Scalar(_) => None,
            AdaType::Composite(composite) => {
                let components = record_definition(self.definition(composite.number));
                self.component_seen(component_named(components, name), composite.seen)
            }
        }
    }
}

/// What stands at the place of a formal type.
fn given_at(given: &[Option<ScalarType>], place: u32) -> ScalarType
    ensures { scalar_type_of result ≡ given_type (slice_get (map given_of given.now) place) }
{
    match given.get(place as usize) {
        Some(actual) => ScalarType::given(*actual),
        None => ScalarType::given(None),
    }
}

/// The parts of an array's definition.
fn array_definition(definition: Option<&Definition>) -> Option<(Subtype, Subtype)>
    ensures { (k : TypeTables) → option_map (parts_of k) result ≡ shape_parts (shape_from k definition.entry) }
{
    match definition {
        Some(Definition::Array(index, component)) => Some((*index, *component)),
        _ => None,
    }
}

/// The components of a record's definition, and none of an array's.
fn record_definition(definition: Option<&Definition>) -> &[Component]
    ensures { (k : TypeTables) → fields_of k result.now ≡ shape_fields (shape_from k definition.entry) }
{
    match definition {
        Some(Definition::Record(components)) => components.as_slice(),
        _ => &[],
    }
}

/// The component with this name.
fn component_named(components: &[Component], name: &[u8]) -> Option<(usize, Subtype)>
    ensures { (k : TypeTables) → option_map (field_of k) result ≡ field_among name.now 0 (fields_of k components.now) }
{
    for (place, component) in components.iter().enumerate() {
        if name == component.name.as_slice() {
            return Some((place, component.subtype));
        }
    }
    None
}
