//! What an object is set to (Ada RM 2012, 3.3.1, 5.2).

ghost use Rattle.std.specs.Prelude.{◌≡◌, None, IfOk};
ghost use Rattle.ada_rules.specs.Declarations as rules;
ghost use Rattle.ada_entities.specs.EntityViews.{Tables};
ghost use Rattle.object_values.specs.NewValues.{new_value_of, known_for, IsValueFor, IsTypedValue, IsNewValue};

use crate::others::placed;
use crate::place::value_place;
use crate::reach::placing;
use crate::single::single_value;
use ada_entities::{Refusal, Subtype, refused};
use ada_judged::{Form, Judged, Kind, StaticTree};
use ada_syntax::Initial;
use ada_tree::{Expr, NewValue as TreeValue, Range, ScalarRange};
use cov_base::{Failure, Pos};
use program_walk::{Decisions, Role, Site, Step, Symbols};
use std::alloc::{AllocError, Global};

/// What an object is set to, and the static value of the expression, where it stands in no `others`.
#[derive(Drop)]
pub struct NewValue {
    pub value: TreeValue,
    pub known: Option<StaticTree>,
}

impl NewValue {
    /// What the step of names goes on with.
    fn any() -> NewValue
        ensures { (k : Tables) → new_value_of k result ≡ record { value = rules.any_value; known = None } }
    {
        let base = Range {
            first: i32::MIN,
            last: i32::MAX,
        };
        NewValue {
            value: TreeValue::Scalar(ScalarRange::Known(base), Expr::literal(0)),
            known: None,
        }
    }
}

/// The static value of an expression, where it stands in no `others`.
fn known_for(others: &[Pos], known: Option<StaticTree>) -> Option<StaticTree>
    ensures { result ≡ known_for others.now known }
{
    if others.is_empty() { known } else { None }
}

/// What an object of this subtype is set to by an expression of this kind, with an `others` at each of
/// these places round it. A type that leads nowhere has no memory.
fn value_for(
    alloc: Global,
    symbols: &Symbols,
    subtype: Subtype,
    others: &[Pos],
    kind: Kind,
    form: Form,
) -> Result<Option<TreeValue>, AllocError>
    ensures { IfOk result (IsValueFor symbols.now subtype others.now kind form) }
{
    match placing(alloc, symbols, subtype, others) {
        Ok(Some(placement)) => {
            let single = single_value(placement.component, kind, form);
            Ok(placed(placement.indices, single))
        }
        Ok(None) => {
            drop(form);
            Ok(None)
        }
        Err(fault) => {
            drop(form);
            Err(fault)
        }
    }
}

/// What an object of this subtype is set to by an expression, with an `others` at each of these places
/// round it, in the step of types. That it is of the type is asked where the rules say, in a statement or
/// declaration that begins at `pos`.
#[tactic(auto, using(crate::proofs::NewValueLaws::parts))]
fn typed_value(
    alloc: Global,
    symbols: &Symbols,
    subtype: Subtype,
    pos: Pos,
    others: &[Pos],
    value: Judged,
) -> Result<NewValue, Failure<Refusal>>
    ensures { IsTypedValue symbols.now subtype pos others.now value result }
{
    let known = known_for(others, value.known);
    let found = value_for(alloc, symbols, subtype, others, value.kind, value.form)?;
    let Some(value) = found else {
        drop(known);
        return Err(refused(value_place(symbols, pos, subtype, others)?));
    };
    Ok(NewValue { value, known })
}

/// What an object of this subtype is set to in a statement or declaration that begins at `pos` (RM 3.3.1, 5.2).
/// Refused at the rules' own place.
#[tactic(auto, using(crate::proofs::NewValueLaws::parts))]
pub fn new_value(
    alloc: Global,
    site: &Site<'_>,
    decisions: &mut Decisions,
    pos: Pos,
    subtype: Subtype,
    initial: &Initial,
) -> Result<NewValue, Failure<Refusal>>
    ensures { IsNewValue site.now decisions.old decisions.new pos subtype initial.now result }
{
    let value = site.judged(alloc, Role::Itself, decisions, &initial.value)?;
    match site.step {
        Step::Naming => {
            drop(value);
            Ok(NewValue::any())
        }
        Step::Typing => {
            let others = initial.others.as_slice();
            typed_value(alloc, site.symbols, subtype, pos, others, value)
        }
    }
}
