//! Which unit is looked at.

ghost use Rattle.unit_walk.specs.Entering.{IsUnitContext};

use crate::contexts::unit_context;
use ada_demands::Instances;
use ada_library::Library;
use ada_phrases::Step;
use program_walk::Context;

/// A unit of a library, by its number and its name in lower case, and the step in which it is looked at.
#[derive(Clone, Copy)]
pub struct UnitPlace<'a> {
    pub step: Step,
    pub library: &'a Library,
    pub unit: u32,
    pub unit_name: &'a [u8],
}

impl<'a> UnitPlace<'a> {
    /// Where the unit is looked at, outside of each package, where instances have these facts.
    pub fn context(self, instances: &'a Instances) -> Context<'a>
        ensures { IsUnitContext self.entry.step self.entry.library.now instances.now self.entry.unit
            self.entry.unit_name.now result }
    {
        unit_context(
            self.step,
            self.library,
            instances,
            self.unit,
            self.unit_name,
        )
    }
}
