//! The sizes of types in words, by instance (Ada RM 2012, 3.5, 3.6, 3.8).

ghost use Rattle.std.specs.Prelude.{◌≡◌, ◌+◌, ◌*◌, ℕ, [], IfOk, IfSome, map, option_map, length};
ghost use Rattle.std.specs.Option.{option_and_then};
ghost use Rattle.ada_meaning.specs.Arithmetic.{count_between};
ghost use Rattle.ada_meaning.specs.Program as meaning;
ghost use Rattle.ada_meaning.specs.Resolved.{shape_in};
ghost use Rattle.ada_meaning.specs.Statics.{values_of};
ghost use Rattle.ada_meaning.specs.Types as type;
ghost use Rattle.ada_tree.specs.Programs.{bounds_of, instance_of, library_object_of, program_of, types_of, unfolded};
ghost use Rattle.ada_tree.specs.View.{subtype_of};
ghost use Rattle.ada_resolved.specs.Library.{instance_size, program_size, stands_in, with_object};
ghost use Rattle.ada_resolved.specs.Sizes as sizes;
ghost use Rattle.ada_resolved.specs.Sizes.{type_size};
ghost use Rattle.ada_resolved.specs.Table.{composite_size, entries_of, entry_of, numbered_size, rows_behind, subtype_size, sum_behind, table_of};

use crate::arithmetic::values_in;
use crate::known::{instance_at, owner_in};
use crate::values::bounds_in;
use ada_tree::{CompositeType, Instance, LibraryObject, Program, Range, Subtype};
use cov_base::{Seq, numbered};
use std::alloc::{AllocError, Global};

/// How many words a program may have at the library level, and so a type.
const WORD_LIMIT: u64 = 262_144;

/// A number of words, where it is not past the limit.
fn limited(words: u64) -> Option<u32>
    ensures { result ≡ sizes.limited words }
{
    if WORD_LIMIT < words {
        return None;
    }
    Some(words as u32)
}

/// So many components of one size.
fn times(count: u64, component: u32) -> Option<u32>
    ensures { result ≡ sizes.limited (count * component) }
{
    limited(count.checked_mul(u64::from(component))?)
}

/// Two sizes together.
fn sum(words: u32, more: u32) -> Option<u32>
    ensures { result ≡ sizes.limited (words + more) }
{
    limited(u64::from(words) + u64::from(more))
}

/// What a row of the table says of an instance; one that is none is like instance 0.
fn entry(row: &[Option<u32>], instance: u32) -> Option<u32>
    ensures { result ≡ entry_of row.now instance }
{
    match row.get(instance as usize) {
        Some(size) => *size,
        None => row.first().copied().flatten(),
    }
}

/// The size of the type with this number in an instance, by the table; no component, where there is none.
fn numbered_size(rows: &[Seq<Option<u32>>], instance: u32, number: u32) -> Option<u32>
    ensures { result ≡ numbered_size rows.now instance number }
{
    match rows.get(number as usize) {
        Some(row) => entry(row.as_slice(), instance),
        None => Some(0),
    }
}

/// The size of a subtype in an instance, by the table so far.
fn subtype_size(
    program: &Program,
    rows: &[Seq<Option<u32>>],
    instance: u32,
    subtype: Subtype,
) -> Option<u32>
    ensures { result ≡ subtype_size program.now rows.now instance subtype }
{
    match subtype {
        Subtype::Scalar(range) => bounds_in(program, instance, range).map(|_| 1),
        Subtype::Composite(owner, number) => {
            numbered_size(rows, owner_in(instance, owner), number)
        }
    }
}

/// The size of an array (RM 3.6).
fn array_size(range: Option<Range>, component: Option<u32>) -> Option<u32>
    ensures { result ≡ sizes.array_size (option_map bounds_of range) component }
{
    times(values_in(range?), component?)
}

/// So many words, and a component more.
fn with_component(words: u32, component: Option<u32>) -> Option<u32>
    ensures { result ≡ sizes.with_component words component }
{
    sum(words, component?)
}

/// The size of a record: the sum of its components (RM 3.8).
fn record_size(
    program: &Program,
    rows: &[Seq<Option<u32>>],
    instance: u32,
    components: &[Subtype],
) -> Option<u32>
    ensures { result ≡ sum_behind program.now rows.now instance 0 components.now }
{
    let mut words = 0;
    for component in components {
        words = with_component(words, subtype_size(program, rows, instance, *component))?;
    }
    Some(words)
}

/// The size of a composite type in an instance, by the table so far.
fn composite_size(
    program: &Program,
    rows: &[Seq<Option<u32>>],
    instance: u32,
    composite: &CompositeType,
) -> Option<u32>
    ensures { result ≡ composite_size program.now rows.now instance composite.now }
{
    match composite {
        CompositeType::Array(range, component) => array_size(
            bounds_in(program, instance, *range),
            subtype_size(program, rows, instance, *component),
        ),
        CompositeType::Record(components) => {
            record_size(program, rows, instance, components.as_slice())
        }
    }
}

/// How many instances there are. A list of 2 ^ 32 items is too large for memory.
pub fn instance_count(instances: &[Instance]) -> Result<u32, AllocError>
    ensures { IfOk result (λ n. n ≡ length instances.now) }
{
    numbered(instances.len())
}

/// The row of a composite type, by the table so far.
fn row_of(
    alloc: Global,
    program: &Program,
    rows: &[Seq<Option<u32>>],
    composite: &CompositeType,
) -> Result<Seq<Option<u32>>, AllocError>
    ensures { IfOk result (λ row. row ≡ entries_of program.now rows.now composite.now) }
{
    let last = instance_count(program.instances.as_slice())?;
    let mut sizes = Vec::new(alloc);
    for instance in 0..=last {
        sizes.push(composite_size(program, rows, instance, composite))?;
    }
    Ok(Seq::from(sizes))
}

/// The table of the types of a program.
fn table_of(alloc: Global, program: &Program) -> Result<Vec<Seq<Option<u32>>>, AllocError>
    ensures { IfOk result (λ rows. rows.items ≡ rows_behind program.now [] program.now.types) }
{
    let mut rows = Vec::new(alloc);
    for declaration in program.types.as_slice() {
        let row = row_of(alloc, program, rows.as_slice(), &declaration.definition)?;
        rows.push(row)?;
    }
    Ok(rows)
}

/// Whether what stands in a generic's text, or in none, stands in the instance with this number.
pub fn stands_in(instances: &[Instance], generic: Option<u32>, instance: u32) -> bool
    ensures { result ≡ stands_in (map instance_of instances.now) generic instance }
{
    let Some(generic) = generic else {
        return instance == 0;
    };
    match instance_at(instances, instance) {
        Some(instance) => instance.generic == generic,
        None => false,
    }
}

/// The sizes of the types of a program: a row for each type, with an entry for each instance. Each is
/// computed once, so types that double stay small.
pub struct TypeSizes<'a> {
    pub(crate) program: &'a Program,
    last_instance: u32,
    rows: Vec<Seq<Option<u32>>>,
    ghost instances: { last_instance ≡ length program.now.instances },
    ghost exact: { rows.items ≡ table_of program.now (types_of program.now.types) },
}

// Written out: a derived drop is proved anew in each crate above.
impl<'a> Drop for TypeSizes<'a> {
    fn drop(self) {
        let TypeSizes {
            program: _,
            last_instance: _,
            rows: _,
        } = self;
    }
}

impl<'a> TypeSizes<'a> {
    /// The sizes of the types of a program.
    pub fn of(alloc: Global, program: &'a Program) -> Result<TypeSizes<'a>, AllocError>
        ensures { IfOk result (λ s. s.program.now ≡ program.now) }
    {
        Ok(TypeSizes {
            program,
            last_instance: instance_count(program.instances.as_slice())?,
            rows: table_of(alloc, program)?,
        })
    }

    /// The program whose types these are.
    pub fn program(&self) -> &'a Program
        ensures { result.now ≡ self.now.program.now }
    {
        self.program
    }

    /// The size of a type in words, in the instance with this number, which is 0 in no generic. There is
    /// none where a bound has no value, or a part takes more than 262,144 words.
    pub fn size_in(&self, instance: u32, subtype: Subtype) -> Option<u32>
        ensures { result ≡ type_size (values_of (program_of self.now.program.now)) instance
            (unfolded (types_of self.now.program.now.types) (subtype_of subtype)) }
    {
        subtype_size(self.program, self.rows.as_slice(), instance, subtype)
    }

    /// So many words, and those of an object of the library level where it stands in an instance.
    fn with_object(&self, instance: u32, words: u32, object: &LibraryObject) -> Option<u32>
        ensures { result ≡ with_object (program_of self.now.program.now) instance words
            (library_object_of (types_of self.now.program.now.types) object.now) }
    {
        if !stands_in(self.program.instances.as_slice(), object.generic, instance) {
            return Some(words);
        }
        with_component(words, self.size_in(instance, object.subtype))
    }

    /// How many words the objects of the library level take in the instance with this number, which is 0
    /// in no generic (RM 7, 12.3): none where a type of them has no size, or beyond 262,144 words.
    pub fn instance_size(&self, instance: u32) -> Option<u32>
        ensures { result ≡ instance_size (program_of self.now.program.now) instance }
    {
        let mut words = 0;
        for object in self.program.objects.as_slice() {
            words = self.with_object(instance, words, object)?;
        }
        Some(words)
    }

    /// How many words all objects of the library level take: those in no generic, and those of each
    /// instance. There is none where those of one have none, or beyond 262,144 words.
    pub fn program_size(&self) -> Option<u32>
        ensures { result ≡ program_size (program_of self.now.program.now) }
    {
        let mut words = 0;
        for instance in 0..=self.last_instance {
            words = with_component(words, self.instance_size(instance))?;
        }
        Some(words)
    }
}

/// Where a type has a size in an instance, objects of the type take so many words in executions.
pub fn sizes_are_exact()
    ensures { (p : meaning.Program) (inst : ℕ) (t : type.Subtype)
        → IfSome (type_size (values_of p) inst t) (λ n. sizes.words (shape_in p inst t) ≡ n) }
{}
