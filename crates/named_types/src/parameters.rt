//! Whether the objects of a subprogram begin with its parameters (Ada RM 2012, 6.1).

ghost use Rattle.std.specs.Prelude.{◌≡◌};
ghost use Rattle.named_types.specs.Same.{begin_with};

use crate::same::same_subtype;
use ada_tree::{Parameter, Subtype};

/// Whether objects begin with those of parameters.
pub(crate) fn begin_with(parameters: &[Parameter], objects: &[Subtype]) -> bool
    ensures { result ≡ begin_with parameters.now objects.now }
{
    let mut left = objects;
    for parameter in parameters {
        let Some((object, behind)) = left.split_first() else {
            return false;
        };
        if !same_subtype(parameter.subtype, *object) {
            return false;
        }
        left = behind;
    }
    true
}
