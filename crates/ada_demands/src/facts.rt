//! What instances have for the formals and the constants of their generics (Ada RM 2012, 12.3).

ghost use Rattle.std.specs.Prelude.{◌≡◌, [], ◌∷◌, ◌++◌, map, option_map, pred, set, slice_get, OnOk};
ghost use Rattle.std.specs.Option.{option_copied};
ghost use Rattle.ada_demands.specs.FactViews.{facts_of, facts_at, facts_in};

use ada_tree::Range;
use cov_base::Seq;
use std::alloc::{AllocError, Global};
use std::marker::Model;

/// What an instance has for a formal.
#[derive(Clone, Copy)]
pub enum Fact {
    /// The value of a formal object (RM 12.4).
    Number(i32),
    /// The bounds of the subtype that stands for a formal type, and those of its type (RM 12.5).
    Type(Range, Range),
    /// The bounds of the result of what stands for a formal subprogram (RM 12.6).
    Result(Range),
}

/// What an instance has.
pub struct Facts {
    /// The number of its generic's unit.
    pub generic: u32,
    /// What it has for the formals, in order.
    pub formals: Seq<Fact>,
    /// The values of its generic's constants, in order: none where a constant has no static value in it.
    pub constants: Seq<Option<i32>>,
}

// Written out: a derived drop is proved anew in each crate above.
impl Drop for Facts {
    fn drop(self) {
        let Facts {
            generic: _,
            formals: _,
            constants: _,
        } = self;
    }
}

/// The instances of a compilation, numbered from 1.
pub struct Instances {
    facts: Vec<Facts>,
}

// Written out: a derived drop is proved anew in each crate above.
impl Drop for Instances {
    fn drop(self) {
        let Instances { facts: _ } = self;
    }
}

impl Model for Instances {
    ghost use Rattle.std.specs.Prelude.{List, map};
    ghost use Rattle.ada_rules.specs.Statics as rules;
    ghost use Rattle.ada_demands.specs.FactViews.{facts_of};

    ghost Value = { List rules.Facts };

    ghost view = { λ i. map facts_of i.facts.items };
}

impl Instances {
    /// No instances.
    pub fn new(alloc: Global) -> Instances
        ensures { result ≡ [] }
    {
        Instances {
            facts: Vec::new(alloc),
        }
    }

    /// Adds an instance behind the others.
    pub fn add(&mut self, facts: Facts) -> Result<(), AllocError>
        ensures { OnOk result (self.new ≡ self.old ++ facts_of facts ∷ []) }
    {
        self.facts.push(facts)?;
        Ok(())
    }

    /// Lets an instance have these; a number without an instance has no effect.
    pub(crate) fn set(&mut self, number: u32, facts: Facts)
        ensures { self.new ≡ set self.old (pred number) (facts_of facts) }
    {
        put(&mut self.facts, index_of(number), facts);
    }

    /// What stands at the place of the instance with this number.
    pub(crate) fn placed(&self, number: u32) -> Option<&Facts>
        ensures { option_map facts_of (option_copied result) ≡ slice_get self.now (pred number) }
    {
        self.facts.get(index_of(number))
    }

    /// What instances have, in order.
    pub fn as_slice(&self) -> &[Facts]
        ensures { map facts_of result.now ≡ self.now }
    {
        self.facts.as_slice()
    }

    /// What the instance with this number has; 0 is none.
    pub(crate) fn at(&self, number: u32) -> Option<&Facts>
        ensures { option_map facts_of (option_copied result) ≡ facts_in self.now number }
    {
        facts_at(self.as_slice(), number)
    }
}

/// The place of an instance.
fn index_of(number: u32) -> usize
    ensures { result ≡ pred number }
{
    number.saturating_sub(1) as usize
}

/// Puts what an instance has at a place, if it is one.
fn put(all: &mut Vec<Facts>, index: usize, facts: Facts)
    ensures { all.new.items ≡ set all.old.items index facts }
{
    if let Some(known) = all.get_mut(index) {
        *known = facts;
    }
}

/// What stands at an instance's place; 0 is none.
fn facts_at(facts: &[Facts], number: u32) -> Option<&Facts>
    ensures { option_copied result ≡ facts_at facts.now number }
{
    let index = number.checked_sub(1)?;
    facts.get(index as usize)
}
