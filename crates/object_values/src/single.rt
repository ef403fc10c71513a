//! Values without `others` (Ada RM 2012, 5.2).

ghost use Rattle.std.specs.Prelude.{◌≡◌};
ghost use Rattle.object_values.specs.Values.{IsSingle, IsComposite, IsOfForm};

use ada_entities::{AdaType, Composite, Subtype};
use ada_judged::{Form, Kind};
use ada_tree::{Expr, Object, Owner, ScalarRange, Selector};

/// What an object is set to, or a component of one.
#[derive(Drop)]
pub enum Single {
    /// An expression, for a scalar object of this subtype.
    Scalar(ScalarRange, Expr),
    /// An object or a part of one, for an object of the composite type with this number.
    Composite(Owner, u32, Object, Vec<Selector>),
}

/// An object or a part of one, where the expression is one.
fn composite(of: Composite, form: Form) -> Option<Single>
    ensures { IsComposite of form result }
{
    match form {
        Form::Object(variable) => Some(Single::Composite(
            of.seen,
            of.number,
            variable.object,
            variable.parts,
        )),
        Form::Plain(expr) => {
            drop(expr);
            None
        }
        Form::Test(test) => {
            drop(test);
            None
        }
    }
}

/// What an object of this subtype is set to by an expression of its type.
fn of_form(subtype: Subtype, form: Form) -> Option<Single>
    ensures { IsOfForm subtype form result }
{
    match subtype.of {
        AdaType::Scalar(_) => Some(Single::Scalar(subtype.range, form.into_expr())),
        AdaType::Composite(of) => composite(of, form),
    }
}

/// What an object of this subtype is set to by an expression of this kind, where it fits.
pub(crate) fn single_value(subtype: Subtype, kind: Kind, form: Form) -> Option<Single>
    ensures { IsSingle subtype kind form result }
{
    if !kind.fits(subtype.of) {
        drop(form);
        return None;
    }
    of_form(subtype, form)
}
