//! What units name in `with`, and the order in which they depend on each other (Ada RM 2012, 10.1.2,
//! 10.2).

ghost use Rattle.std.specs.Prelude.{◌≡◌, List, ◌∷◌, ◌++◌, IfOk, OnOk};
ghost use Rattle.ada_syntax.specs.declared.name.Identifier.{Identifier as Name};
ghost use Rattle.ada_rules.specs.Library as rules;
ghost use Rattle.ada_library.specs.Depending.{AreDependencies};

use crate::items::is_package_body;
use crate::names::Names;
use crate::ordering::dependency_order;
use crate::search::reached;
use ada_entities::key;
use ada_syntax::{Identifier, Unit, WithClause};
use cov_base::{Seq, numbered};
use std::alloc::{AllocError, Global};
use std::collections::VecDeque;

/// For each unit the numbers of those that it names, where it is no body of a package, and the order in
/// which units depend on each other. Where that is not all of them, some lead to a cycle.
pub struct Dependencies {
    pub(crate) graph: Seq<Seq<u32>>,
    pub(crate) order: Seq<u32>,
    pub(crate) is_ordered: bool,
}

// Written out: a derived drop is proved anew in each crate above.
impl Drop for Dependencies {
    fn drop(self) {
        let Dependencies {
            graph: _,
            order: _,
            is_ordered: _,
        } = self;
    }
}

/// Adds the number of the unit that a name denotes.
fn add_named(
    alloc: Global,
    names: &Names,
    identifier: &Identifier,
    numbers: &mut Vec<u32>,
) -> Result<(), AllocError>
    ensures { OnOk result ((more : List Name) → numbers.new.items ++ rules.numbers_named names.now more
        ≡ numbers.old.items ++ rules.numbers_named names.now (identifier.now ∷ more)) }
{
    let name = key(alloc, identifier)?;
    match names.find(name.as_slice()) {
        Some(number) => {
            numbers.push(number)?;
            Ok(())
        }
        None => Ok(()),
    }
}

/// Adds the numbers of the units that names denote.
fn add_all_named(
    alloc: Global,
    names: &Names,
    identifiers: &[Identifier],
    numbers: &mut Vec<u32>,
) -> Result<(), AllocError>
    ensures { OnOk result ((more : List Name) → numbers.new.items ++ rules.numbers_named names.now more
        ≡ numbers.old.items ++ rules.numbers_named names.now (identifiers.now ++ more)) }
{
    for identifier in identifiers {
        add_named(alloc, names, identifier, numbers)?;
    }
    Ok(())
}

/// The numbers of the units that `with` clauses name.
fn named_units(alloc: Global, names: &Names, clauses: &[WithClause]) -> Result<Vec<u32>, AllocError>
    ensures { IfOk result (λ ns. ns.items ≡ rules.numbers_named names.now (rules.clause_names clauses.now)) }
{
    let mut numbers = Vec::new(alloc);
    for clause in clauses {
        add_all_named(alloc, names, clause.names.as_slice(), &mut numbers)?;
    }
    Ok(numbers)
}

/// The numbers of the units that a unit names. A body of a package leads nowhere.
fn edges_of(alloc: Global, names: &Names, unit: &Unit) -> Result<Vec<u32>, AllocError>
    ensures { IfOk result (λ ns. ns.items ≡ rules.edges_of names.now unit.now) }
{
    if is_package_body(&unit.item) {
        return Ok(Vec::new(alloc));
    }
    named_units(alloc, names, unit.withs.as_slice())
}

/// For each unit the numbers of those that it names.
fn graph_of(alloc: Global, names: &Names, units: &[Unit]) -> Result<Vec<Seq<u32>>, AllocError>
    ensures { IfOk result (λ graph. graph.items ≡ rules.graph_of names.now units.now) }
{
    let mut graph = Vec::new(alloc);
    for unit in units {
        let edges = edges_of(alloc, names, unit)?;
        graph.push(Seq::from(edges))?;
    }
    Ok(graph)
}

/// The numbers of the units that are no bodies of packages.
fn units_but_bodies(alloc: Global, units: &[Unit]) -> Result<VecDeque<u32>, AllocError>
    ensures { IfOk result (λ ns. ns.items ≡ rules.units_but_bodies 0 units.now) }
{
    let mut numbers = VecDeque::new(alloc);
    for (index, unit) in units.iter().enumerate() {
        if is_package_body(&unit.item) {
            continue;
        }
        numbers.push_back(numbered(index)?)?;
    }
    Ok(numbers)
}

impl Dependencies {
    /// Those of units, of which these are the names.
    pub fn new(alloc: Global, names: &Names, units: &[Unit]) -> Result<Dependencies, AllocError>
        ensures { IfOk result (AreDependencies names.now units.now) }
    {
        let graph = graph_of(alloc, names, units)?;
        let rest = units_but_bodies(alloc, units)?;
        let count = rest.len();
        let order = dependency_order(alloc, graph.as_slice(), rest)?;
        let is_ordered = order.len() == count;
        Ok(Dependencies {
            graph: Seq::from(graph),
            order: Seq::from(order),
            is_ordered,
        })
    }

    /// Whether a unit leads back to another. Where all stand in the order none does.
    pub fn leads_back(&self, alloc: Global, from: u32, to: u32) -> Result<bool, AllocError>
        ensures { IfOk result (λ b. b ≡ rules.leads_back self.now.is_ordered self.now.graph from to) }
    {
        if self.is_ordered {
            return Ok(false);
        }
        let marks = reached(alloc, self.graph.as_slice(), from)?;
        Ok(marks.has(to))
    }
}
