//! Ranges of loop parameters (Ada RM 2012, 5.5).

ghost use Rattle.std.specs.Prelude.{◌≡◌, option_map, IfOk, OnOk};
ghost use Rattle.ada_syntax.specs.declared.declaration.DiscreteRange.TheVariants as discrete;
ghost use Rattle.ada_rules.specs.Statements as rules;
ghost use Rattle.ada_entities.specs.EntityViews.{Tables, entity_of, values_of};
ghost use Rattle.ada_entities.specs.Views.{scalar_type_of, subtype_of};
ghost use Rattle.ada_judged.specs.JudgedView.{judged_of};
ghost use Rattle.ada_demands.specs.SpanViews.{listed, Begins};
ghost use Rattle.object_values.specs.program_walk.specs.Changes.{UnlessMemory};
ghost use Rattle.statement_parts.specs.Turns.{turns_in, AreValuesBetween, AreTurnsBetween, IsTurned, Lengthens};

use crate::handing::paired;
use crate::typing::typed;
use ada_demands::{ListedSpans, SpanTable, TypeValues};
use ada_entities::{Access, AdaType, DeclaredObject, Entity, Refusal, ScalarType, Subtype, Values};
use ada_judged::{Judged, StaticTree};
use ada_phrases::{Decisions, Role};
use ada_syntax::{Bounds, DiscreteRange};
use ada_tree::{LoopRange, Object};
use cov_base::Failure;
use object_values::Site;
use std::alloc::{AllocError, Global};

/// The range of a loop parameter: its values as the loop takes them, its subtype, and the values that a
/// case statement on the parameter names.
#[derive(Drop)]
pub struct Turns {
    pub over: LoopRange,
    pub subtype: Subtype,
    pub values: Values,
}

impl Turns {
    /// The values of a subtype.
    fn over(subtype: Subtype) -> Turns
        ensures { (k : Tables) → turns_in k result ≡ rules.turns_over (subtype_of k.types subtype) }
    {
        Turns {
            over: LoopRange::Subtype(subtype.range),
            subtype,
            values: Values::Within(subtype.range),
        }
    }

    /// What the step of names goes on with.
    fn any() -> Turns
        ensures { (k : Tables) → turns_in k result ≡ rules.any_turns }
    {
        Turns::over(Subtype::integer())
    }
}

/// The values between two bounds, where both are static, and else those of the type.
fn values_between(
    spans: &mut SpanTable,
    first: Option<StaticTree>,
    last: Option<StaticTree>,
    of: ScalarType,
) -> Result<Values, AllocError>
    ensures values { IfOk result (AreValuesBetween (listed spans.new) first last of) }
    ensures continues { OnOk result (Lengthens (listed spans.old) (listed spans.new)) }
{
    let otherwise = TypeValues::of(of)?;
    match first.zip(last) {
        Some((first, last)) => spans.add(ListedSpans {
            first,
            last,
            otherwise,
        }),
        None => Ok(otherwise.values()),
    }
}

/// The range between two bounds, where they are of one discrete type.
fn turns_between(
    spans: &mut SpanTable,
    low: Judged,
    high: Judged,
) -> Result<Option<Turns>, AllocError>
    ensures turns { IfOk result (AreTurnsBetween (listed spans.new) low high) }
    ensures continues { OnOk result (Lengthens (listed spans.old) (listed spans.new)) }
{
    let Some(kind) = low.kind.common(high.kind) else {
        drop((low, high));
        return Ok(None);
    };
    let of = kind.settled();
    let AdaType::Scalar(scalar) = of else {
        drop((low, high));
        return Ok(None);
    };
    let values = values_between(spans, low.known, high.known, scalar);
    let over = LoopRange::Bounds(low.form.into_expr(), high.form.into_expr());
    let (over, values) = paired(over, values)?;
    let range = Subtype::integer().range;
    Ok(Some(Turns {
        over,
        subtype: Subtype { of, range },
        values,
    }))
}

/// The range between two bounds of the text.
#[tactic(auto, using(crate::proofs::Ends::parts))]
fn turned_between(
    alloc: Global,
    site: &Site<'_>,
    decisions: &mut Decisions,
    spans: &mut SpanTable,
    bounds: &Bounds,
) -> Result<Turns, Failure<Refusal>>
    ensures turned { IsTurned site.now decisions.old decisions.new
        (listed spans.new) (discrete.Bounds bounds.now) result }
    ensures continues { UnlessMemory (Lengthens (listed spans.old) (listed spans.new)) result }
{
    let low = site.judged(alloc, Role::Itself, decisions, &bounds.low)?;
    let high = site.judged(alloc, Role::Itself, decisions, &bounds.high);
    let (low, high) = paired(low, high)?;
    let found = turns_between(spans, low, high)?;
    typed(site.step, bounds.low.pos(), Turns::any(), found)
}

/// The range of a loop parameter. Values between static bounds become an entry of the table. Refused at
/// the rules' own place.
#[tactic(auto, using(crate::proofs::Ends::parts))]
pub fn turned(
    alloc: Global,
    site: &Site<'_>,
    decisions: &mut Decisions,
    spans: &mut SpanTable,
    range: &DiscreteRange,
) -> Result<Turns, Failure<Refusal>>
    ensures turned { IsTurned site.now decisions.old decisions.new (listed spans.new) range.now result }
    ensures continues { UnlessMemory (Lengthens (listed spans.old) (listed spans.new)) result }
{
    match range {
        DiscreteRange::Mark(name) => {
            let marked = site.scalar_mark(alloc, decisions, name)?;
            Ok(Turns::over(marked.subtype))
        }
        DiscreteRange::Bounds(bounds) => turned_between(alloc, site, decisions, spans, bounds),
    }
}

/// A loop parameter: the object with this number among those of the subprogram, which is no variable.
pub fn loop_parameter(number: u32, turns: &Turns) -> Entity
    ensures { (k : Tables) → entity_of k result ≡ rules.loop_parameter number (turns_in k turns.now) }
{
    Entity::Object(DeclaredObject {
        object: Object::Local(number),
        subtype: turns.subtype,
        access: Access::Constant,
        known: None,
        values: turns.values,
    })
}
