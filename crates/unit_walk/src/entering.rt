//! The beginning and the end of a unit (Ada RM 2012, 8.1, 10.1).

ghost use Rattle.std.specs.Prelude.{◌≡◌, OnOk};
ghost use Rattle.ada_entities.specs.RegionCode.{innermost};
ghost use Rattle.unit_walk.specs.Entering.{Enters, Leaves, LeavesWords};

use ada_entities::Region;
use program_walk::{Found, Symbols, UnitWords, Walk};
use std::alloc::{AllocError, Global};
use std::mem;

/// Enters a unit that sees this of the library, and whose text has declared this already. Types are
/// numbered anew in it.
pub fn enter_unit(
    alloc: Global,
    walk: &mut Walk,
    seen: Region,
    text: Region,
) -> Result<(), AllocError>
    ensures { OnOk result (Enters walk.old seen text walk.new) }
{
    walk.counts.types = 0;
    walk.found.library_words = Vec::new(alloc);
    walk.symbols.reopen(seen)?;
    walk.symbols.reopen(text)
}

/// Leaves a unit: closes its text, which is answered, and what it sees of the library.
pub fn leave_unit(alloc: Global, symbols: &mut Symbols) -> Region
    ensures text { result ≡ innermost symbols.old.regions }
    ensures left { Leaves symbols.old symbols.new }
{
    let text = symbols.close(alloc);
    symbols.close(alloc);
    text
}

/// Notes the objects of the library level that a unit has declared in the text of a package, by the number
/// of the package's unit, which stands in this generic or in none. Behind the unit none are left.
pub fn note_library_words(
    alloc: Global,
    found: &mut Found,
    unit: u32,
    package_unit: u32,
    generic: Option<u32>,
) -> Result<(), AllocError>
    ensures { OnOk result (LeavesWords found.old unit package_unit generic found.new) }
{
    let words = mem::replace(&mut found.library_words, Vec::new(alloc));
    found.add_unit_words(UnitWords {
        unit,
        package_unit,
        generic,
        words,
    })
}
