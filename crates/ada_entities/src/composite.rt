//! Composite types, and the table that they stand in (Ada RM 2012, 3.6, 3.8).

ghost use Rattle.std.specs.Prelude.{IsTrue};
ghost use Rattle.ada_entities.specs.Views.{is_made};
ghost use Rattle.ada_entities.specs.Tables.{are_earlier};

use crate::types::{ScalarType, Subtype};
use cov_base::{Bytes, Seq};

/// A component of a record, by its name in lower case.
pub struct Component {
    pub name: Bytes,
    pub subtype: Subtype,
}

// Written out: a derived drop is proved anew in each crate above.
impl Drop for Component {
    fn drop(self) {
        let Component {
            name: _,
            subtype: _,
        } = self;
    }
}

/// The definition of a composite type.
pub enum Definition {
    /// The subtypes of the index and of the components (RM 3.6).
    Array(Subtype, Subtype),
    /// The components, in order (RM 3.8).
    Record(Seq<Component>),
}

// Written out: a derived drop is proved anew in each crate above.
impl Drop for Definition {
    fn drop(self) {
        match self {
            Definition::Array(_, _) => {}
            Definition::Record(_) => {}
        }
    }
}

/// The composite types of a compilation, each built of those before it; and, by the number of each
/// instance that was made, what it has for the formal types of its generic, at the places of the
/// formals. Instances have the numbers of the text, and are made in the order of dependence; instance 0
/// is all that is in no generic.
pub struct Types {
    pub(crate) definitions: Vec<Definition>,
    pub(crate) instances: Vec<Option<Seq<Option<ScalarType>>>>,
    ghost earlier: { IsTrue (are_earlier (is_made instances.items) 0 definitions.items) },
}

// Written out: a derived drop is proved anew in each crate above.
impl Drop for Types {
    fn drop(self) {
        let Types {
            definitions: _,
            instances: _,
        } = self;
    }
}
