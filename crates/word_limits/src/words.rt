//! How many words subtypes take (Ada RM 2012, 3.2, 12.3).

ghost use Rattle.std.specs.Prelude.{◌≡◌, IfOk};
ghost use Rattle.ada_rules.specs.Limits.{words_in};
ghost use Rattle.ada_tree.specs.Programs.{types_of, unfolded};
ghost use Rattle.ada_tree.specs.View.{subtype_of};
ghost use Rattle.word_limits.specs.Capped.{capped};
ghost use Rattle.word_limits.specs.Rows.{AreRows};

use crate::ranges::Scope;
use crate::rows::{Row, subtype_words};
use crate::table::table_of;
use ada_demands::Instances;
use ada_tree::{Subtype, TypeDeclaration};
use std::alloc::{AllocError, Global};

/// The words of the types of a program in the instances where they stand. Each is counted once, so types
/// that double stay small.
pub(crate) struct WordTable<'a> {
    pub(crate) types: &'a [TypeDeclaration],
    pub(crate) instances: &'a Instances,
    rows: Vec<Row>,
    ghost exact: { ∥ AreRows instances.now (types_of types.now) rows.items ∥₁ },
}

// Written out: a derived drop is proved anew in each crate above.
impl<'a> Drop for WordTable<'a> {
    fn drop(self) {
        let WordTable {
            types: _,
            instances: _,
            rows: _,
        } = self;
    }
}

impl<'a> WordTable<'a> {
    /// The words of these types.
    pub(crate) fn of(
        alloc: Global,
        types: &'a [TypeDeclaration],
        instances: &'a Instances,
    ) -> Result<WordTable<'a>, AllocError>
        ensures types { IfOk result (λ t. t.types.now ≡ types.now) }
        ensures instances { IfOk result (λ t. t.instances.now ≡ instances.now) }
    {
        Ok(WordTable {
            types,
            instances,
            rows: table_of(alloc, types, instances)?,
        })
    }

    /// How many words a subtype takes in an instance, which is 0 in no generic, counted up to the cap.
    /// Where that is not known there is no memory; no legal text has such a subtype.
    pub(crate) fn words(&self, instance: u32, subtype: Subtype) -> Result<u32, AllocError>
        ensures { IfOk result (λ w. w ≡ capped (words_in self.now.instances.now instance
            (unfolded (types_of self.now.types.now) (subtype_of subtype)))) }
    {
        match subtype_words(self.rows.as_slice(), Scope::Instance(instance), subtype) {
            Some(words) => Ok(words),
            None => Err(AllocError),
        }
    }
}
