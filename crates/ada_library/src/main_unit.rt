//! The main unit (Ada RM 2012, 10.2).

ghost use Rattle.std.specs.Prelude.{◌≡◌, IfOk};
ghost use Rattle.ada_syntax.specs.declared.unit.LibraryItem.TheVariants as item;
ghost use Rattle.ada_rules.specs.Units as rules;

use ada_entities::key;
use ada_syntax::{LibraryItem, SubprogramBody, Unit};
use std::alloc::{AllocError, Global};

/// Whether a library subprogram is a procedure without parameters.
fn is_bare(body: &SubprogramBody) -> bool
    ensures { result ≡ rules.is_bare body.now }
{
    body.specification.parameters.is_empty() && body.specification.result_mark.is_none()
}

/// Whether a library subprogram is a procedure without parameters of this name in lower case.
fn is_bare_named(alloc: Global, name: &[u8], body: &SubprogramBody) -> Result<bool, AllocError>
    ensures { IfOk result (λ b. b ≡ rules.is_main name.now (item.Subprogram body.now)) }
{
    let own = key(alloc, &body.specification.name)?;
    Ok(is_bare(body) && name == own.as_slice())
}

/// Whether a unit is the procedure without parameters of this name in lower case.
fn is_main(alloc: Global, name: &[u8], item: &LibraryItem) -> Result<bool, AllocError>
    ensures { IfOk result (λ b. b ≡ rules.is_main name.now item.now) }
{
    match item {
        LibraryItem::Subprogram(body) => is_bare_named(alloc, name, body),
        LibraryItem::Package(_) | LibraryItem::PackageBody(_) | LibraryItem::Instance(_) => {
            Ok(false)
        }
    }
}

/// Whether there is a library procedure without parameters of this name, in lower case: the main unit.
/// Its number is that of its body.
pub fn has_main(alloc: Global, name: &[u8], units: &[Unit]) -> Result<bool, AllocError>
    ensures { IfOk result (λ b. b ≡ rules.has_main name.now units.now) }
{
    for unit in units {
        if is_main(alloc, name, &unit.item)? {
            return Ok(true);
        }
    }
    Ok(false)
}
