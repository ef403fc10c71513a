//! What a map needs of its object follows from the object's own checks.

ghost use Rattle.object_format.specs.declared.object.Object.{Object};
ghost use Rattle.object_format.specs.Checked.{IsSound};
ghost use Rattle.decision_map.specs.Roles.{IsMappable};

/// A law: an object that passes its own checks has what a map needs of it.
#[tactic(auto, using(crate::proofs::Sound::sound_mappable))]
pub fn checked_objects_have_maps()
    ensures { (o : Object) → IsSound o → IsMappable o }
{}
