//! Bodies of library subprograms (Ada RM 2012, 6.3, 10.1).

ghost use Rattle.unit_interfaces.specs.unit_walk.specs.Bodies.{PassesBody, ComesToSubprogram};

use crate::library::library_body;
use ada_demands::Instances;
use ada_entities::{Refusal, Region};
use ada_syntax::SubprogramBody;
use cov_base::Failure;
use program_walk::Walk;
use std::alloc::Global;
use unit_interfaces::{UnitPlace, enter_unit, leave_unit};

/// The body of a library subprogram, which declares no object of the library level. Refused at the
/// rules' own place.
#[tactic(auto, using(program_walk::proofs::GoingLaws::parts))]
pub fn subprogram_body(
    alloc: Global,
    place: UnitPlace<'_>,
    instances: &Instances,
    walk: &mut Walk,
    seen: Region,
    body: &SubprogramBody,
) -> Result<(), Failure<Refusal>>
    ensures comes { ComesToSubprogram place.entry instances.now walk.old walk.new seen body.now result }
    ensures passes { PassesBody walk.old walk.new seen result }
{
    let context = place.context(instances).inside();
    enter_unit(alloc, walk, seen, Region::new(alloc))?;
    library_body(alloc, &context, walk, body)?;
    leave_unit(alloc, &mut walk.symbols);
    Ok(())
}
