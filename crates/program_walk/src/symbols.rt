//! The symbol table (Ada RM 2012, 8.1 to 8.3).

use crate::extent::Extent;
use ada_entities::{Regions, Routines, Types, Units};

/// What is declared: the composite types and instances, the subprograms, what is seen of each unit, and
/// the regions that are open. Of the regions the outermost is what a unit sees of the library, and the
/// next one is its text.
pub struct Symbols {
    pub(crate) types: Types,
    pub(crate) routines: Routines,
    pub(crate) units: Units,
    pub(crate) regions: Regions,
    pub(crate) extent: Extent,
}

// Written out: a derived drop is proved anew in each crate above.
impl Drop for Symbols {
    fn drop(self) {
        let Symbols {
            types: _,
            routines: _,
            units: _,
            regions: _,
            extent: _,
        } = self;
    }
}
