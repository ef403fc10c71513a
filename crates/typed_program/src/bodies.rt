//! What the limits ask of the bodies of subprograms (Ada RM 2012, 6.3, 7.2).

ghost use Rattle.std.specs.Prelude.{◌≡◌, [], ◌∷◌, ◌++◌, map, IfOk, OnOk};
ghost use Rattle.program_weights.specs.BodyEntries.{body_entry, body_entries};
ghost use Rattle.program_weights.specs.BodyTexts.{bodies_among, bodies_of_item};

use ada_syntax::{BodyItem, LibraryItem, SubprogramBody, Unit, body_node_count};
use ada_tree::BodyEntry;
use std::alloc::{AllocError, Global};

/// Where a body begins, and how many of its tokens count as nodes.
fn entry_of(body: &SubprogramBody) -> BodyEntry
    ensures { result ≡ body_entry body.now }
{
    BodyEntry {
        pos: body.specification.pos,
        nodes: body_node_count(body),
    }
}

/// Adds an entry for an item of a package's body, where it is the body of a subprogram.
fn add_item(entries: &mut Vec<BodyEntry>, item: &BodyItem) -> Result<(), AllocError>
    ensures { OnOk result (entries.new.items ≡ entries.old.items ++ map body_entry (bodies_among (item.now ∷ []))) }
{
    match item {
        BodyItem::Body(body) => {
            entries.push(entry_of(body))?;
            Ok(())
        }
        BodyItem::Declared(_) => Ok(()),
    }
}

/// Adds entries for the bodies among these items.
fn add_items(entries: &mut Vec<BodyEntry>, items: &[BodyItem]) -> Result<(), AllocError>
    ensures { OnOk result (entries.new.items ≡ entries.old.items ++ map body_entry (bodies_among items.now)) }
{
    for item in items {
        add_item(entries, item)?;
    }
    Ok(())
}

/// Adds entries for the bodies in the text of a unit.
fn add_unit(entries: &mut Vec<BodyEntry>, unit: &Unit) -> Result<(), AllocError>
    ensures { OnOk result (entries.new.items ≡ entries.old.items ++ map body_entry (bodies_of_item unit.now.item)) }
{
    match &unit.item {
        LibraryItem::PackageBody(body) => add_items(entries, body.items.as_slice()),
        LibraryItem::Subprogram(body) => {
            let entry = entry_of(body);
            entries.push(entry)?;
            Ok(())
        }
        LibraryItem::Package(_) | LibraryItem::Instance(_) => Ok(()),
    }
}

/// What the limits ask of the bodies in all units, in the order of the text.
pub fn body_entries(alloc: Global, units: &[Unit]) -> Result<Vec<BodyEntry>, AllocError>
    ensures { IfOk result (λ es. es.items ≡ body_entries units.now) }
{
    let mut entries = Vec::new(alloc);
    for unit in units {
        add_unit(&mut entries, unit)?;
    }
    Ok(entries)
}
