//! How many words types take, by a table of those before them (Ada RM 2012, 3.5, 3.6, 3.8).

ghost use Rattle.std.specs.Prelude.{◌≡◌, ◌*◌, ℕ, List, IfSome, option_map, slice_get, unwrap_or};
ghost use Rattle.std.specs.Option.{option_and_then, option_copied};
ghost use Rattle.ada_meaning.specs.Types as type;
ghost use Rattle.ada_rules.specs.Limits.{words_in};
ghost use Rattle.ada_rules.specs.Statics.{Facts};
ghost use Rattle.ada_tree.specs.Programs.{unfolded};
ghost use Rattle.ada_tree.specs.View.{composite_of, components_of, numbered, subtype_of};
ghost use Rattle.word_limits.specs.Capped.{capped};
ghost use Rattle.word_limits.specs.Rows.{Takes, AreEntries, IsRow, AreRows, Counts};

use crate::capped::{product, sum};
use crate::ranges::{Scope, length_in, owned};
use ada_demands::Instances;
use ada_tree::{CompositeType, Subtype};
use cov_base::Seq;

/// How many words a type takes in an instance.
#[derive(Clone, Copy)]
pub(crate) struct Entry {
    pub(crate) instance: u32,
    pub(crate) words: u32,
}

/// How many words a type takes.
pub(crate) enum Row {
    /// So many in every instance.
    Everywhere(u32),
    /// So many in each of these instances, which rise.
    ByInstance(Seq<Entry>),
}

// Written out: a derived drop is proved anew in each crate above.
impl Drop for Row {
    fn drop(self) {
        match self {
            Row::Everywhere(_) => {}
            Row::ByInstance(_) => {}
        }
    }
}

/// The entry at a place.
fn entry_at(entries: &[Entry], index: usize) -> Option<Entry>
    ensures { result ≡ slice_get entries.now index }
{
    entries.get(index).copied()
}

/// How many words there are in an instance, by the entries of one type.
fn entry_in(entries: &[Entry], instance: u32) -> Option<u32>
    ensures { (is : List Facts) (t : type.Subtype) → AreEntries is t entries.now
        → IfSome result (λ w. w ≡ capped (words_in is instance t)) }
{
    let index = entries.partition_point(|entry| entry.instance < instance);
    let entry = entry_at(entries, index)?;
    if entry.instance != instance {
        return None;
    }
    Some(entry.words)
}

/// How many words there are by the row of a type.
fn row_words(row: &Row, scope: Scope) -> Option<u32>
    ensures { (is : List Facts) (t : type.Subtype) → IsRow is t row.now → IfSome result (Takes is scope t) }
{
    match row {
        Row::Everywhere(words) => Some(*words),
        Row::ByInstance(entries) => match scope {
            Scope::Everywhere => None,
            Scope::Instance(instance) => entry_in(entries.as_slice(), instance),
        },
    }
}

/// The row of the type with this number.
fn row_at(rows: &[Row], number: u32) -> Option<&Row>
    ensures { option_copied result ≡ slice_get rows.now number }
{
    rows.get(number as usize)
}

/// How many words the type with this number takes, by the table so far.
fn numbered_words(rows: &[Row], scope: Scope, number: u32) -> Option<u32>
    ensures { Counts rows.now scope (λ ts. unwrap_or (slice_get ts number) (numbered number)) result }
{
    let row = row_at(rows, number)?;
    row_words(row, scope)
}

/// How many words a subtype takes, by the table so far.
pub(crate) fn subtype_words(rows: &[Row], scope: Scope, subtype: Subtype) -> Option<u32>
    ensures { Counts rows.now scope (λ ts. unfolded ts (subtype_of subtype)) result }
{
    match subtype {
        Subtype::Scalar(_) => Some(1),
        Subtype::Composite(owner, number) => numbered_words(rows, owned(scope, owner), number),
    }
}

/// How many words an array takes, by its length and its components (RM 3.6).
fn array_words(length: Option<u64>, component: Option<u32>) -> Option<u32>
    ensures { result ≡ option_and_then (λ n. option_map (λ w. capped (n * w)) component) length }
{
    Some(product(length?, component?))
}

/// How many words a record takes: those of its components (RM 3.8).
fn record_words(rows: &[Row], scope: Scope, components: &[Subtype]) -> Option<u32>
    ensures { Counts rows.now scope (λ ts. unfolded ts (type.fields (components_of components.now))) result }
{
    let mut words = 0;
    for component in components {
        words = sum(words, subtype_words(rows, scope, *component)?);
    }
    Some(words)
}

/// How many words a composite type takes, by the table so far.
pub(crate) fn composite_words(
    instances: &Instances,
    rows: &[Row],
    scope: Scope,
    composite: &CompositeType,
) -> Option<u32>
    ensures { (ts : List type.Subtype) → AreRows instances.now ts rows.now
        → IfSome result (Takes instances.now scope (unfolded ts (composite_of composite.now))) }
{
    match composite {
        CompositeType::Array(range, component) => array_words(
            length_in(instances, scope, *range),
            subtype_words(rows, scope, *component),
        ),
        CompositeType::Record(components) => record_words(rows, scope, components.as_slice()),
    }
}
