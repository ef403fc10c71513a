//! What composite types are built of (Ada RM 2012, 3.6).

ghost use Rattle.std.specs.Prelude.{◌≡◌, IfOk};
ghost use Rattle.program_walk.specs.Known.{knows_type};
ghost use Rattle.program_walk.specs.Composites.{knows_parts, AreArrayParts};

use crate::extent::Extent;
use crate::symbols::Symbols;
use ada_entities::{AdaType, Subtype};
use std::alloc::AllocError;

impl Extent {
    /// Whether the subtypes that an array is built of, if it is one, lead only to what is there.
    fn knows_parts(&self, parts: Option<(Subtype, Subtype)>) -> bool
        ensures { result ≡ knows_parts self.now parts }
    {
        match parts {
            Some((index, component)) => self.knows_type(index.of) && self.knows_type(component.of),
            None => true,
        }
    }
}

impl Symbols {
    /// Whether a type leads only to what is there.
    pub fn knows(&self, of: AdaType) -> bool
        ensures { result ≡ knows_type self.now.extent of }
    {
        self.extent.knows_type(of)
    }

    /// The subtypes of the index and of the components, of an array (RM 3.6). A type that leads nowhere
    /// has no memory.
    pub fn array_of(&self, of: AdaType) -> Result<Option<(Subtype, Subtype)>, AllocError>
        ensures { IfOk result (AreArrayParts self.now of) }
    {
        let parts = self.types.array_of(of);
        if !self.extent.knows_type(of) || !self.extent.knows_parts(parts) {
            return Err(AllocError);
        }
        Ok(parts)
    }
}
