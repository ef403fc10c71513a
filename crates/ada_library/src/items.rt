//! What units declare (Ada RM 2012, 10.1.1).

ghost use Rattle.std.specs.Prelude.{◌≡◌, [], ◌∷◌, codes, Ok, IfOk};
ghost use Rattle.ada_rules.specs.Entities.{same_name};
ghost use Rattle.ada_rules.specs.Library as rules;
ghost use Rattle.ada_library.specs.UnitNaming.{IsWanting};

use ada_syntax::{Identifier, LibraryItem, PackageItem};

/// Whether a name in lower case is that of the predefined unit of input and output (RM A.1).
pub fn is_test_io(name: &[u8]) -> bool
    ensures { result ≡ same_name name.now (codes "test_io") }
{
    name == "test_io".as_bytes()
}

/// The name of a library unit.
pub fn item_name(item: &LibraryItem) -> &Identifier
    ensures { result.now ≡ rules.item_name item.now }
{
    match item {
        LibraryItem::Package(package) => &package.name,
        LibraryItem::PackageBody(body) => &body.name,
        LibraryItem::Instance(instance) => &instance.name,
        LibraryItem::Subprogram(body) => &body.specification.name,
    }
}

/// Whether a unit is the body of a package (RM 7.2).
pub fn is_package_body(item: &LibraryItem) -> bool
    ensures { result ≡ rules.is_package_body item.now }
{
    matches!(item, LibraryItem::PackageBody(_))
}

/// Whether a unit is an instance of a generic package (RM 12.3).
pub fn is_instance(item: &LibraryItem) -> bool
    ensures { result ≡ rules.is_instance item.now }
{
    matches!(item, LibraryItem::Instance(_))
}

/// Whether a declaration in a package is that of a subprogram.
fn is_subprogram(item: &PackageItem) -> bool
    ensures { result ≡ rules.declares_subprogram (item.now ∷ []) }
{
    matches!(item, PackageItem::Subprogram(_))
}

/// Whether a package declares a subprogram.
fn declares_subprogram(items: &[PackageItem]) -> bool
    ensures { result ≡ rules.declares_subprogram items.now }
{
    for item in items {
        if is_subprogram(item) {
            return true;
        }
    }
    false
}

/// Whether a unit is a package that has a body: one that declares a subprogram (RM 7.2).
pub fn has_body(item: &LibraryItem) -> bool
    ensures { IsWanting item.now result }
{
    match item {
        LibraryItem::Package(package) => declares_subprogram(package.items.as_slice()),
        LibraryItem::PackageBody(_) | LibraryItem::Instance(_) | LibraryItem::Subprogram(_) => {
            false
        }
    }
}

/// Two parts, where both were made. A caller that hands them over owns nothing where one was not.
pub fn both<A: Drop, B: Drop, E: Drop>(
    first: Result<A, E>,
    second: Result<B, E>,
) -> Result<(A, B), E>
    ensures first { IfOk result (λ parts. first ≡ Ok parts.0) }
    ensures second { IfOk result (λ parts. second ≡ Ok parts.1) }
{
    Ok((first?, second?))
}
