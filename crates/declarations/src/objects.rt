//! What names of objects denote (Ada RM 2012, 3.3.1).

ghost use Rattle.std.specs.Prelude.{◌≡◌, option_map};
ghost use Rattle.ada_tree.specs.View.{object_of};
ghost use Rattle.ada_rules.specs.Declarations as rules;
ghost use Rattle.ada_entities.specs.EntityViews.{Tables, constant_of, entity_of, is_variable};
ghost use Rattle.ada_entities.specs.Views.{subtype_of};

use ada_entities::{Access, ConstantValue, DeclaredObject, Entity, Subtype, Values};
use ada_syntax::Constancy;
use ada_tree::{Object, Subtype as TreeSubtype};

/// What objects are declared as: of which subtype, which is this one of the typed program, and what is
/// known of their value.
#[derive(Clone, Copy)]
pub(crate) struct ObjectForm {
    pub(crate) constancy: Constancy,
    pub(crate) subtype: Subtype,
    pub(crate) tree: TreeSubtype,
    pub(crate) known: Option<ConstantValue>,
}

/// Whether an object may be assigned.
fn access(constancy: Constancy) -> Access
    ensures { is_variable result ≡ rules.is_variable constancy }
{
    match constancy {
        Constancy::Variable => Access::Variable,
        Constancy::Constant => Access::Constant,
    }
}

impl ObjectForm {
    /// What the name of such an object denotes.
    pub(crate) fn entity(self, object: Object) -> Entity
        ensures { (k : Tables) → entity_of k result ≡ rules.object_entity (object_of object) self.constancy
            (subtype_of k.types self.subtype) (option_map constant_of self.known) }
    {
        Entity::Object(DeclaredObject {
            object,
            subtype: self.subtype,
            access: access(self.constancy),
            known: self.known,
            values: Values::Within(self.subtype.range),
        })
    }
}
