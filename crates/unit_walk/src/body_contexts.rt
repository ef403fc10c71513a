//! Where the declarations and the statements of a body stand (Ada RM 2012, 6.3, 6.5).

ghost use Rattle.specifications.specs.Contexts.{IsInBody};

use ada_demands::Instances;
use ada_library::Library;
use program_walk::{Context, Level, Returning};

/// Inside the body of a subprogram with this name, in lower case, whose `return` gives this. The name of a
/// library subprogram is empty here. The library, the instances and the name of the unit are handed in for
/// as long as that name stands.
pub fn body_context<'a>(
    context: &Context<'_>,
    library: &'a Library,
    instances: &'a Instances,
    unit_name: &'a [u8],
    subprogram_name: &'a [u8],
    returning: Returning,
) -> Context<'a>
    ensures { IsInBody context.now library.now instances.now unit_name.now subprogram_name.now returning result }
{
    Context {
        step: context.step,
        library,
        instances,
        unit: context.unit,
        unit_name,
        subprogram_name,
        generic: context.generic,
        own_package: context.own_package,
        level: Level::Inside,
        is_looping: false,
        is_handling: false,
        returning,
    }
}
