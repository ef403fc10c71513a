//! Where units are looked at (Ada RM 2012, 7.1, 10.1).

ghost use Rattle.unit_walk.specs.Entering.{IsUnitContext, IsPackageContext};

use ada_demands::Instances;
use ada_library::Library;
use ada_phrases::Step;
use program_walk::{Context, Level, Returning};

/// Where the unit with this number and this name in lower case is looked at, outside of each package.
pub fn unit_context<'a>(
    step: Step,
    library: &'a Library,
    instances: &'a Instances,
    unit: u32,
    unit_name: &'a [u8],
) -> Context<'a>
    ensures { IsUnitContext step library.now instances.now unit unit_name.now result }
{
    Context {
        step,
        library,
        instances,
        unit,
        unit_name,
        subprogram_name: &[],
        generic: None,
        own_package: None,
        level: Level::Library,
        is_looping: false,
        is_handling: false,
        returning: Returning::Nothing,
    }
}

/// The text of the package with this number in a unit, and the generic that the package is, if it is one.
pub fn package_context(unit: Context<'_>, generic: Option<u32>, package_unit: u32) -> Context<'_>
    ensures { IsPackageContext unit.entry generic package_unit result }
{
    Context {
        generic,
        own_package: Some(package_unit),
        ..unit
    }
}
