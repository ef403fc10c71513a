//! Which numbers lead to what is there.

ghost use Rattle.std.specs.Prelude.{◌≡◌, set, true, IfOk};
ghost use Rattle.ada_tree.specs.View.{owner_of};
ghost use Rattle.program_walk.specs.Known.{IsFreshExtent, awaits, knows_instance, knows_owner, knows_type, knows_routine, knows_entity, knows_components, knows_definition, knows_parameters, knows_result, knows_subprogram, knows_kind, knows_form, knows_judged, knows_denoted, knows_interface};

use ada_entities::{
    AdaType, Component, Definition, Entity, Interface, Parameter, ResultMark, Routine, RoutineName,
};
use ada_phrases::{Denoted, Form, Judged, Kind};
use ada_tree::Owner;
use std::alloc::{AllocError, Global};

/// How many composite types and subprograms there are: the numbers below lead to them. And, by its
/// number, whether an instance was made.
#[derive(Drop)]
pub struct Extent {
    pub types: usize,
    pub made: Vec<bool>,
    pub routines: usize,
}

impl Extent {
    /// No types, no instance but number 0, and the subprograms of `Test_IO`; there is place for so many
    /// other instances.
    pub(crate) fn new(alloc: Global, others: usize) -> Result<Extent, AllocError>
        ensures { IfOk result (IsFreshExtent others) }
    {
        let mut made = Vec::new(alloc);
        made.push(true)?;
        for _ in 0..others {
            made.push(false)?;
        }
        Ok(Extent {
            types: 0,
            made,
            routines: 2,
        })
    }

    /// Whether an instance was made.
    pub(crate) fn knows_instance(&self, instance: u32) -> bool
        ensures { result ≡ knows_instance self.now instance }
    {
        match self.made.get(instance as usize) {
            Some(made) => *made,
            None => false,
        }
    }

    /// Whether an instance has a place, and was not made.
    pub(crate) fn awaits(&self, instance: u32) -> bool
        ensures { result ≡ awaits self.now instance }
    {
        match self.made.get(instance as usize) {
            Some(made) => !*made,
            None => false,
        }
    }

    /// Notes that an instance was made; one without a place has no effect.
    pub(crate) fn make(&mut self, instance: u32)
        ensures made { self.new.made.items ≡ set self.old.made.items instance true }
        ensures types { self.new.types ≡ self.old.types }
        ensures routines { self.new.routines ≡ self.old.routines }
    {
        if let Some(made) = self.made.get_mut(instance as usize) {
            *made = true;
        }
    }

    /// Whether an owner is an instance that was made, or none.
    fn knows_owner(&self, owner: Owner) -> bool
        ensures { result ≡ knows_owner self.now (owner_of owner) }
    {
        match owner {
            Owner::Here => true,
            Owner::Instance(instance) => self.knows_instance(instance),
        }
    }

    /// Whether a type leads only to what is there.
    pub(crate) fn knows_type(&self, of: AdaType) -> bool
        ensures { result ≡ knows_type self.now of }
    {
        match of {
            AdaType::Scalar(_) => true,
            AdaType::Composite(composite) => {
                (composite.number as usize) < self.types && self.knows_owner(composite.seen)
            }
        }
    }

    /// Whether a subprogram's name leads only to what is there.
    fn knows_routine(&self, routine: RoutineName) -> bool
        ensures { result ≡ knows_routine self.now routine }
    {
        (routine.number as usize) < self.routines && self.knows_owner(routine.seen)
    }

    /// Whether an entity leads only to what is there.
    pub(crate) fn knows_entity(&self, entity: Entity) -> bool
        ensures { result ≡ knows_entity self.now entity }
    {
        match entity {
            Entity::Mark(_, subtype) | Entity::FormalObject(subtype, _, _) => {
                self.knows_type(subtype.of)
            }
            Entity::Literal(of, _) => self.knows_type(of),
            Entity::Object(object) => self.knows_type(object.subtype.of),
            Entity::Routine(routine) => self.knows_routine(routine),
            Entity::Hidden
            | Entity::Exception(_)
            | Entity::Component
            | Entity::TestIo
            | Entity::Unit(_) => true,
        }
    }

    /// Whether the components of a record lead only to what is there.
    fn knows_components(&self, components: &[Component]) -> bool
        ensures { result ≡ knows_components self.now components.now }
    {
        components
            .iter()
            .all(|component| self.knows_type(component.subtype.of))
    }

    /// Whether the definition of a composite type leads only to what is there.
    pub(crate) fn knows_definition(&self, definition: &Definition) -> bool
        ensures { result ≡ knows_definition self.now definition.now }
    {
        match definition {
            Definition::Array(index, component) => {
                self.knows_type(index.of) && self.knows_type(component.of)
            }
            Definition::Record(components) => self.knows_components(components.as_slice()),
        }
    }

    /// Whether parameters lead only to what is there.
    fn knows_parameters(&self, parameters: &[Parameter]) -> bool
        ensures { result ≡ knows_parameters self.now parameters.now }
    {
        parameters
            .iter()
            .all(|parameter| self.knows_type(parameter.subtype.of))
    }

    /// Whether the result of a subprogram, where it has one, leads only to what is there.
    fn knows_result(&self, returned: Option<ResultMark>) -> bool
        ensures { result ≡ knows_result self.now returned }
    {
        match returned {
            Some(mark) => self.knows_type(mark.subtype.of),
            None => true,
        }
    }

    /// Whether a subprogram leads only to what is there.
    pub(crate) fn knows_subprogram(&self, routine: &Routine) -> bool
        ensures { result ≡ knows_subprogram self.now routine.now }
    {
        self.knows_parameters(routine.parameters.as_slice()) && self.knows_result(routine.result)
    }

    /// Whether an interface names only instances and subprograms that are there.
    pub(crate) fn knows_interface(&self, interface: &Interface) -> bool
        ensures { result ≡ knows_interface self.now interface.now }
    {
        match interface {
            Interface::Instance(_, instance) => self.knows_instance(*instance),
            Interface::Subprogram(routine) => self.knows_routine(*routine),
            Interface::Unknown | Interface::Package(_) | Interface::Generic(_, _) => true,
        }
    }

    /// Whether what an expression fits leads only to what is there.
    fn knows_kind(&self, kind: Kind) -> bool
        ensures { result ≡ knows_kind self.now kind }
    {
        match kind {
            Kind::Universal => true,
            Kind::Of(of) => self.knows_type(of),
        }
    }

    /// Whether the form of an expression leads only to what is there.
    fn knows_form(&self, form: &Form) -> bool
        ensures { result ≡ knows_form self.now form.now }
    {
        match form {
            Form::Object(variable) => self.knows_type(variable.subtype.of),
            Form::Plain(_) | Form::Test(_) => true,
        }
    }

    /// Whether an expression leads only to what is there.
    pub(crate) fn knows_judged(&self, value: &Judged) -> bool
        ensures { result ≡ knows_judged self.now value.now }
    {
        self.knows_kind(value.kind) && self.knows_form(&value.form)
    }

    /// Whether what a name denotes leads only to what is there.
    pub(crate) fn knows_denoted(&self, denoted: &Denoted) -> bool
        ensures { result ≡ knows_denoted self.now denoted.now }
    {
        match denoted {
            Denoted::Mark(_, subtype) => self.knows_type(subtype.of),
            Denoted::Value(value) => self.knows_judged(value),
            Denoted::Variable(variable) => self.knows_type(variable.subtype.of),
            Denoted::Routine(routine) | Denoted::Call(routine, _) => self.knows_routine(*routine),
            Denoted::Exception(_) | Denoted::Unit(_) | Denoted::TestIo | Denoted::Thing => true,
        }
    }
}
