//! The layouts of composite types (Ada RM 2012, 3.6, 3.8): what their objects begin with.

ghost use Rattle.std.specs.Prelude.{◌≡◌, ◌++◌, ◌∷◌, [], IfOk, OnOk, length, option_map, unwrap_or};
ghost use Rattle.ada_meaning.specs.Resolved as resolved;
ghost use Rattle.ada_meaning.specs.Statics.{static_bounds, values_of};
ghost use Rattle.ada_tree.specs.Objects.{capped};
ghost use Rattle.ada_tree.specs.Programs.{bounds_of, program_of};
ghost use Rattle.ada_tree.specs.View.{owner_of, scalar_range_of};
ghost use Rattle.cov_base.specs.Lists.{Everywhere};
ghost use Rattle.storage_layout.specs.Layouts as spec;

use ada_resolved::{TypeSizes, bounds_in, instance_count, owner_in, stands_in, values_in};
use ada_tree::{CompositeType, Owner, Program, Range, ScalarRange, Subtype, TypeDeclaration};
use cov_base::{Seq, number_behind, numbered};
use kernel_ir::Layout;
use std::alloc::{AllocError, Global};
use std::marker::Model;

/// What a layout lays out.
#[derive(Clone, Copy)]
pub enum LaidType {
    /// A scalar component with this first value.
    First(i32),
    /// A composite type, by the instance and its number in the table of types.
    Composite(u32, u32),
}

/// Layouts by number, each with what it lays out.
#[derive(Drop)]
pub struct TypeLayouts {
    laid: Vec<LaidType>,
    layouts: Vec<Layout>,
}

impl Model for TypeLayouts {
    ghost Value = { spec.Layouts };

    ghost view = { λ s. record { laid = s.laid.items; layouts = s.layouts.items } };

    ghost invariant = { λ s. Everywhere spec.HasWord s.layouts.items };
}

/// How many layouts stand before that of a type in an instance. A list of 2^32 layouts is too large for
/// memory.
pub fn layouts_before(laid: &[LaidType], instance: u32, number: u32) -> Result<u32, AllocError>
    ensures { IfOk result (λ n. n ≡ spec.layouts_before instance number laid.now) }
{
    let mut before: u32 = 0;
    for one in laid {
        if is_layout_of(*one, instance, number) {
            return Ok(before);
        }
        before = number_behind(before)?;
    }
    Ok(before)
}

/// Whether a layout is that of a type in an instance.
fn is_layout_of(laid: LaidType, instance: u32, number: u32) -> bool
    ensures { result ≡ spec.is_layout_of instance number laid }
{
    match laid {
        LaidType::First(_) => false,
        LaidType::Composite(in_instance, of_number) => {
            in_instance == instance && of_number == number
        }
    }
}

/// The bounds of a range in an instance; 0 and 0 for one without bounds.
fn bounds(program: &Program, instance: u32, range: ScalarRange) -> Range
    ensures { bounds_of result ≡ spec.bounds program.now instance (scalar_range_of range) }
{
    bounds_in(program, instance, range).unwrap_or(Range { first: 0, last: 0 })
}

impl TypeLayouts {
    ghost use Rattle.std.specs.Prelude.{◌≡◌, ◌+◌, IfOk, OnOk, length};
    ghost use Rattle.cov_base.specs.Lists.{Everywhere};
    ghost use Rattle.storage_layout.specs.Layouts as spec;

    /// No layouts.
    fn new(alloc: Global) -> TypeLayouts
        ensures { result ≡ spec.no_layouts }
    {
        TypeLayouts {
            laid: Vec::new(alloc),
            layouts: Vec::new(alloc),
        }
    }

    /// What the layouts lay out. First values are numbers of 32 bits.
    pub fn laid(&self) -> &[LaidType]
        ensures laid { result.now ≡ self.now.laid }
        ensures words { Everywhere spec.HasWord self.now.layouts }
    {
        self.laid.as_slice()
    }

    /// The layouts.
    pub fn into_layouts(self) -> Seq<Layout>
        ensures { result ≡ self.layouts }
    {
        Seq::from(self.layouts)
    }

    /// Adds a layout.
    fn push(&mut self, laid: LaidType, layout: Layout) -> Result<(), AllocError>
        requires { spec.HasWord layout }
        ensures { OnOk result (self.new ≡ spec.with_layout laid layout self.old) }
    {
        self.laid.push(laid)?;
        self.layouts.push(layout)?;
        Ok(())
    }

    /// The number of the layout of a component, which is added for a scalar one. A list of 2^32 layouts is
    /// too large for memory.
    fn push_component(
        &mut self,
        program: &Program,
        instance: u32,
        component: Subtype,
    ) -> Result<u32, AllocError>
        ensures number { IfOk result (λ n. n ≡ spec.component_number instance self.old.laid component) }
        ensures added { OnOk result (self.new ≡ spec.with_component program.now instance component self.old) }
    {
        match component {
            Subtype::Scalar(range) => {
                let number = numbered(self.laid.len())?;
                let first = bounds(program, instance, range).first;
                self.push(LaidType::First(first), Layout::Word(first))?;
                Ok(number)
            }
            Subtype::Composite(owner, number) => {
                layouts_before(self.laid(), owner_in(instance, owner), number)
            }
        }
    }

    /// The numbers of the layouts of the components of a record, in order.
    fn push_components(
        &mut self,
        alloc: Global,
        program: &Program,
        instance: u32,
        components: &[Subtype],
    ) -> Result<Seq<u32>, AllocError>
        ensures numbers { IfOk result (λ ns. ns ≡ spec.component_numbers program.now instance self.old components.now) }
        ensures added { OnOk result (self.new ≡ spec.with_components program.now instance components.now self.old) }
    {
        let mut numbers = Vec::new(alloc);
        for component in components {
            numbers.push(self.push_component(program, instance, *component)?)?;
        }
        Ok(Seq::from(numbers))
    }

    /// The layout of a type's definition, behind those of its scalar components.
    fn push_definition(
        &mut self,
        alloc: Global,
        program: &Program,
        instance: u32,
        definition: &CompositeType,
    ) -> Result<Layout, AllocError>
        ensures layout { IfOk result (λ l. l ≡ spec.definition_layout program.now instance self.old definition.now) }
        ensures added { OnOk result (self.new ≡ spec.with_parts program.now instance definition.now self.old) }
    {
        match definition {
            CompositeType::Array(range, component) => {
                let count = values_in(bounds(program, instance, *range));
                Ok(Layout::Array {
                    count: u32::try_from(count).unwrap_or(u32::MAX),
                    component: self.push_component(program, instance, *component)?,
                })
            }
            CompositeType::Record(components) => Ok(Layout::Record(self.push_components(
                alloc,
                program,
                instance,
                components.as_slice(),
            )?)),
        }
    }

    /// Adds the layout of a type in an instance, by its number and its definition.
    fn push_type(
        &mut self,
        alloc: Global,
        sizes: &TypeSizes,
        instance: u32,
        number: u32,
        definition: &CompositeType,
    ) -> Result<(), AllocError>
        ensures { OnOk result (self.new
            ≡ spec.with_definition sizes.now.program.now instance number definition.now self.old) }
    {
        let laid = LaidType::Composite(instance, number);
        let of = sizes.named(instance, Subtype::Composite(Owner::Here, number));
        if sizes.words(of) == 0 {
            return self.push(laid, Layout::Record(Seq::from(Vec::new(alloc))));
        }
        let layout = self.push_definition(alloc, sizes.program(), instance, definition)?;
        self.push(laid, layout)
    }

    /// Adds the layout of a type in an instance, if it stands there.
    fn push_type_in(
        &mut self,
        alloc: Global,
        sizes: &TypeSizes,
        instance: u32,
        number: u32,
        declaration: &TypeDeclaration,
    ) -> Result<(), AllocError>
        ensures { OnOk result (self.new
            ≡ spec.with_type_in sizes.now.program.now instance number declaration.now self.old) }
    {
        let instances = sizes.program().instances.as_slice();
        if !stands_in(instances, declaration.generic, instance) {
            return Ok(());
        }
        self.push_type(alloc, sizes, instance, number, &declaration.definition)
    }

    /// Adds the layouts of a type in all instances in which it stands.
    fn push_type_in_all(
        &mut self,
        alloc: Global,
        sizes: &TypeSizes,
        number: u32,
        declaration: &TypeDeclaration,
    ) -> Result<(), AllocError>
        ensures { OnOk result (self.new ≡ spec.with_type_in_all sizes.now.program.now
            (length sizes.now.program.now.instances + 1) 0 number declaration.now self.old) }
    {
        let last = instance_count(sizes.program().instances.as_slice())?;
        for instance in 0..=last {
            self.push_type_in(alloc, sizes, instance, number, declaration)?;
        }
        Ok(())
    }

    /// The layouts of the types of a program, in the order of their numbers, each behind those of its scalar
    /// components. A table of 2^32 types is too large for memory.
    pub fn of(alloc: Global, sizes: &TypeSizes) -> Result<TypeLayouts, AllocError>
        ensures { IfOk result (λ ls. ls ≡ spec.layouts_of sizes.now.program.now) }
    {
        let mut layouts = TypeLayouts::new(alloc);
        for (place, declaration) in sizes.program().types.as_slice().iter().enumerate() {
            let number = numbered(place)?;
            layouts.push_type_in_all(alloc, sizes, number, declaration)?;
        }
        Ok(layouts)
    }
}
