//! What types are built of, by instance (Ada RM 2012, 3.5, 3.6, 3.8).

ghost use Rattle.std.specs.Prelude.{◌≡◌, ◌≤◌, ℕ, option_map, slice_get, take, unwrap_or};
ghost use Rattle.std.specs.Option.{option_copied};
ghost use Rattle.ada_meaning.specs.Shape.{group, no_shape};
ghost use Rattle.ada_tree.specs.declared.types.Subtype.TheVariants as subtype;
ghost use Rattle.ada_tree.specs.Programs.{program_of, types_of};
ghost use Rattle.ada_tree.specs.View.{numbered};
ghost use Rattle.ada_resolved.specs.Forms.{known_shape, named_type, shape_of, shapes_of};
ghost use Rattle.ada_resolved.specs.Sizes.{all_words, word_limit, words};

use crate::known::owner_in;
use crate::sizes::TypeSizes;
use crate::values::bounds_in;
use ada_tree::{CompositeType, Owner, Range, ScalarRange, Subtype, TypeDeclaration};

/// A type as it is in an instance.
#[derive(Clone, Copy)]
pub struct TypeIn {
    /// The number of the instance, which is 0 in no generic.
    pub instance: u32,
    pub subtype: Subtype,
    /// How many types of the table stand before the one that names it: all, where an object names it.
    pub below: usize,
}

/// What a type is built of.
#[derive(Clone, Copy)]
pub enum TypeForm<'a> {
    /// A scalar type, with its values (RM 3.5).
    Scalar(Range),
    /// An array: the values of its index, and the type of its components (RM 3.6).
    Array(Range, TypeIn),
    /// A record (RM 3.8).
    Record(RecordForm<'a>),
}

/// The components of a record.
#[derive(Clone, Copy)]
pub struct RecordForm<'a> {
    sizes: &'a TypeSizes<'a>,
    instance: u32,
    below: usize,
    components: &'a [Subtype],
    ghost small: { all_words (shapes_of sizes.now.program.now instance below components.now) ≤ word_limit },
}

/// The first components, as many as there are of so many.
fn first_of(components: &[Subtype], count: u32) -> &[Subtype]
    ensures { result.now ≡ take count components.now }
{
    components.get(..count as usize).unwrap_or(components)
}

/// The declaration with this number in a table of types.
fn declaration_at(types: &[TypeDeclaration], number: u32) -> Option<&TypeDeclaration>
    ensures { option_copied result ≡ slice_get types.now number }
{
    types.get(number as usize)
}

impl RecordForm<'_> {
    /// The types of the components, in order, as the record's declaration has them.
    pub fn subtypes(&self) -> &[Subtype]
        ensures { result.now ≡ self.now.components.now }
    {
        self.components
    }

    /// The type that a component of the record has in its instance.
    pub fn component_type(&self, subtype: Subtype) -> TypeIn
        ensures { result ≡ record { instance = self.now.instance; subtype = subtype; below = self.now.below } }
    {
        TypeIn {
            instance: self.instance,
            subtype,
            below: self.below,
        }
    }

    /// The type of the component with this place, counted from 0; none, where there is no component.
    pub fn component(&self, place: u32) -> Option<TypeIn>
        ensures { result ≡ option_map
            (λ t. record { instance = self.now.instance; subtype = t; below = self.now.below })
            (slice_get self.now.components.now place) }
    {
        let subtype = self.components.get(place as usize)?;
        Some(self.component_type(*subtype))
    }

    /// How many words the components before the one with this place take.
    pub fn words_before(&self, place: u32) -> u32
        ensures words { result ≡ all_words (shapes_of self.now.sizes.now.program.now self.now.instance self.now.below
            (take place self.now.components.now)) }
        ensures small { result ≤ word_limit }
    {
        let mut words = 0;
        for component in first_of(self.components, place) {
            words += self.sizes.words(self.component_type(*component));
        }
        words
    }
}

impl TypeSizes<'_> {
    ghost use Rattle.ada_resolved.specs.Built.{IsIn, shape_of_form};

    /// The size of a type; none where it has no size.
    fn size(&self, of: TypeIn) -> Option<u32>
        ensures words { unwrap_or result 0 ≡ words (shape_of self.now.program.now of) }
        ensures small { unwrap_or result 0 ≤ word_limit }
    {
        match of.subtype {
            Subtype::Scalar(_) => self.size_in(of.instance, of.subtype),
            Subtype::Composite(_, number) => {
                if of.below <= number as usize {
                    return Some(0);
                }
                self.size_in(of.instance, of.subtype)
            }
        }
    }

    /// A type that an object names in an instance: all types of the table stand before it.
    pub fn named(&self, instance: u32, subtype: Subtype) -> TypeIn
        ensures { result ≡ named_type self.now.program.now instance subtype }
    {
        TypeIn {
            instance,
            subtype,
            below: self.program.types.len(),
        }
    }

    /// How many words an object of a type takes: none, where the type has no size.
    pub fn words(&self, of: TypeIn) -> u32
        ensures words { result ≡ words (shape_of self.now.program.now of) }
        ensures small { result ≤ word_limit }
    {
        self.size(of).unwrap_or(0)
    }

    /// A record without a component.
    fn nothing(&self) -> TypeForm<'_>
        ensures shape { shape_of_form self.now.program.now result ≡ group no_shape }
        ensures program { IsIn self.now.program.now result }
    {
        TypeForm::Record(RecordForm {
            sizes: self,
            instance: 0,
            below: 0,
            components: &[],
        })
    }

    /// What a scalar type is.
    fn scalar_form(&self, instance: u32, range: ScalarRange) -> TypeForm<'_>
        ensures program { IsIn self.now.program.now result }
        ensures shape { (below : ℕ) → shape_of_form self.now.program.now result ≡ shape_of self.now.program.now
            (record { instance = instance; subtype = subtype.Scalar range; below = below }) }
    {
        match bounds_in(self.program, instance, range) {
            Some(range) => TypeForm::Scalar(range),
            None => self.nothing(),
        }
    }

    /// What the array or record with this number in the table of types is built of.
    fn numbered_form(&self, instance: u32, number: u32) -> TypeForm<'_>
        ensures program { IsIn self.now.program.now result }
        ensures shape { shape_of_form self.now.program.now result ≡ known_shape (program_of self.now.program.now) instance
            (unwrap_or (slice_get (types_of self.now.program.now.types) number) (numbered number)) }
    {
        let Some(declaration) = declaration_at(self.program.types.as_slice(), number) else {
            return self.nothing();
        };
        let Some(_) = self.size_in(instance, Subtype::Composite(Owner::Here, number)) else {
            return self.nothing();
        };
        match &declaration.definition {
            CompositeType::Array(range, component) => {
                let Some(range) = bounds_in(self.program, instance, *range) else {
                    return self.nothing();
                };
                let component = TypeIn {
                    instance,
                    subtype: *component,
                    below: number as usize,
                };
                TypeForm::Array(range, component)
            }
            CompositeType::Record(components) => TypeForm::Record(RecordForm {
                sizes: self,
                instance,
                below: number as usize,
                components: components.as_slice(),
            }),
        }
    }

    /// What a type is built of: a record without a component, where the type has no size.
    pub fn form(&self, of: TypeIn) -> TypeForm<'_>
        ensures shape { shape_of_form self.now.program.now result ≡ shape_of self.now.program.now of }
        ensures program { IsIn self.now.program.now result }
    {
        match of.subtype {
            Subtype::Scalar(range) => self.scalar_form(of.instance, range),
            Subtype::Composite(owner, number) => {
                if of.below <= number as usize {
                    return self.nothing();
                }
                self.numbered_form(owner_in(of.instance, owner), number)
            }
        }
    }
}
