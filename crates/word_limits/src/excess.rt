//! Where types and the objects of subprograms pass their limits (Ada RM 2012, 1.1.3).

ghost use Rattle.std.specs.Prelude.{◌≡◌, IfOk, map, reverse};
ghost use Rattle.ada_rules.specs.Limits as rules;
ghost use Rattle.ada_tree.specs.Programs.{types_of};
ghost use Rattle.word_limits.specs.Counting.{declares_by, most_of, subprogram_by, type_by, word_by};

use crate::capped::sum_within;
use crate::limit::{Limit, earlier};
use crate::table::places_of;
use crate::words::WordTable;
use cov_base::Pos;
use program_walk::{DeclaredType, SubprogramWords, Word};
use std::alloc::{AllocError, Global};

/// The first place of these.
pub(crate) fn first_place(places: &[Pos]) -> Option<Pos>
    ensures { result ≡ rules.first_place (reverse places.now) }
{
    let mut first = None;
    for place in places {
        first = earlier(Some(*place), first);
    }
    first
}

/// The first of these objects at which the count passes a limit, in an instance.
fn first_beyond(
    table: &WordTable<'_>,
    limit: Limit,
    instance: u32,
    words: &[Word],
) -> Result<Option<Pos>, AllocError>
    ensures { IfOk result (λ p. p ≡ rules.first_beyond table.now.instances.now (most_of limit) instance 0
        (map (word_by (types_of table.now.types.now)) words.now)) }
{
    let mut before = 0;
    for word in words {
        let more = table.words(instance, word.subtype)?;
        match sum_within(limit.most(), before, more) {
            Some(all) => before = all,
            None => return Ok(Some(word.pos)),
        }
    }
    Ok(None)
}

/// The same in some of these instances.
fn first_in_some(
    table: &WordTable<'_>,
    limit: Limit,
    places: &[u32],
    words: &[Word],
) -> Result<Option<Pos>, AllocError>
    ensures { IfOk result (λ p. p ≡ rules.first_in_some table.now.instances.now (most_of limit) places.now
        (map (word_by (types_of table.now.types.now)) words.now)) }
{
    let mut first = None;
    for index in (0..places.len()).rev() {
        first = earlier(first_beyond(table, limit, places[index], words)?, first);
    }
    Ok(first)
}

/// The first of these objects that passes a limit, in the instances where its text stands.
fn beyond(
    alloc: Global,
    table: &WordTable<'_>,
    limit: Limit,
    generic: Option<u32>,
    words: &[Word],
) -> Result<Option<Pos>, AllocError>
    ensures { IfOk result (λ p. p ≡ rules.beyond table.now.instances.now (most_of limit)
        (declares_by (types_of table.now.types.now) generic words.now)) }
{
    let places = places_of(alloc, table.instances, generic)?;
    first_in_some(table, limit, places.as_slice(), words)
}

/// The first type of too many words.
pub(crate) fn first_type(
    alloc: Global,
    table: &WordTable<'_>,
    types: &[DeclaredType],
) -> Result<Option<Pos>, AllocError>
    ensures { IfOk result (λ p. p ≡ rules.first_declared table.now.instances.now rules.most_words_of_type
        (reverse (map (type_by (types_of table.now.types.now)) types.now))) }
{
    let mut first = None;
    for declared in types {
        let own = beyond(
            alloc,
            table,
            Limit::Type,
            declared.generic,
            &[declared.word],
        )?;
        first = earlier(own, first);
    }
    Ok(first)
}

/// The first object at which a subprogram has too many words.
pub(crate) fn first_object(
    alloc: Global,
    table: &WordTable<'_>,
    subprograms: &[SubprogramWords],
) -> Result<Option<Pos>, AllocError>
    ensures { IfOk result (λ p. p ≡ rules.first_declared table.now.instances.now rules.most_words_of_subprogram
        (reverse (map (subprogram_by (types_of table.now.types.now)) subprograms.now))) }
{
    let mut first = None;
    for declared in subprograms {
        let words = declared.words.as_slice();
        let own = beyond(alloc, table, Limit::Subprogram, declared.generic, words)?;
        first = earlier(own, first);
    }
    Ok(first)
}
