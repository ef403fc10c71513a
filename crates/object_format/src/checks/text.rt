//! Where an object's text stands.

ghost use Rattle.std.specs.Prelude.{◌≡◌, true};
ghost use Rattle.object_format.specs.declared.object.Object.{Object};
ghost use Rattle.object_format.specs.Fields.{passes_field};
ghost use Rattle.object_format.specs.Text.{is_in_text, IsLaidOut};

use crate::object::TEXT_START;

/// Whether an instruction of the text stands at an address.
pub(crate) fn is_in_text(text: &[u32], address: u32) -> bool
    ensures { result ≡ is_in_text text.now address }
{
    match address.checked_sub(TEXT_START) {
        Some(offset) => offset % 4 == 0 && ((offset / 4) as usize) < text.len(),
        None => false,
    }
}

/// A law: an object that passes the check `field` has text, entry and data in their places.
#[tactic(auto, using(crate::proofs::FieldLaws::laid_out))]
pub fn an_object_is_laid_out()
    ensures { (o : Object) → passes_field o ≡ true → IsLaidOut o }
{}
