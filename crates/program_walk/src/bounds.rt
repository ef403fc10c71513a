//! Static bounds, and subtypes that they make (Ada RM 2012, 3.2.2, 3.5).

ghost use Rattle.std.specs.Prelude.{◌≡◌, option_map};
ghost use Rattle.ada_meaning.specs.Types.{between};
ghost use Rattle.ada_tree.specs.View.{scalar_range_of, static_value_of};
ghost use Rattle.ada_rules.specs.Plan.{answer_at};
ghost use Rattle.ada_rules.specs.Declarations as rules;
ghost use Rattle.ada_entities.specs.Views.{subtype_of};
ghost use Rattle.ada_entities.specs.EntityViews.{Tables};
ghost use Rattle.program_walk.specs.Parts.{accepts_of};
ghost use Rattle.program_walk.specs.Places.{ComesTo};
ghost use Rattle.program_walk.specs.Subtypes.{range_of, subtype_in, constrained_to, narrowing, IsConstrained};

use crate::asks::{Accepted, Asks};
use crate::place::{Notes, Place};
use ada_demands::Test;
use ada_entities::{Refusal, Subtype, refused};
use ada_phrases::Step;
use ada_syntax::{Bounds, SubtypeIndication};
use ada_tree::{Owner, Range, ScalarRange, StaticValue};
use cov_base::{Failure, Pos};
use std::alloc::Global;

/// The range between two values of a text.
pub(crate) fn between(low: StaticValue, high: StaticValue) -> ScalarRange
    ensures { scalar_range_of result ≡ between (static_value_of low) (static_value_of high) }
{
    match (low, high) {
        (StaticValue::Number(first), StaticValue::Number(last)) => {
            ScalarRange::Known(Range { first, last })
        }
        _ => ScalarRange::Between(Owner::Here, low, high),
    }
}

/// A scalar subtype with this range (RM 3.2.2); none of a composite one.
fn constrained(subtype: Subtype, range: ScalarRange) -> Option<Subtype>
    ensures { (k : Tables) → option_map (subtype_in k) result
        ≡ constrained_to (subtype_of k.types subtype) (scalar_range_of range) }
{
    if subtype.of.is_scalar() {
        Some(Subtype {
            of: subtype.of,
            range,
        })
    } else {
        None
    }
}

/// The same of a mark that begins at this place; the step of names goes on with the mark.
fn constrained_mark(
    step: Step,
    pos: Pos,
    subtype: Subtype,
    range: ScalarRange,
) -> Result<Subtype, Failure<Refusal>>
    ensures { IsConstrained step pos subtype range result }
{
    match step {
        Step::Naming => Ok(subtype),
        Step::Typing => constrained(subtype, range).ok_or(refused(pos)),
    }
}

impl Place<'_> {
    /// Two static bounds of a type that is accepted, within a range, the low one not above the high one
    /// (RM 3.5). Refused at the rules' own place.
    #[tactic(auto, using(crate::proofs::PartLaws::parts))]
    pub fn bounded(
        &self,
        alloc: Global,
        notes: &mut Notes,
        accepted: Accepted,
        within: ScalarRange,
        bounds: &Bounds,
    ) -> Result<ScalarRange, Failure<Refusal>>
        ensures { ComesTo range_of self.now notes.old notes.new
            (λ k env s. (rules.bounded env s (accepts_of k.types accepted) (scalar_range_of within) bounds.now).answer) result }
    {
        let asks = Asks::Within(within);
        let low = self.static_part(alloc, notes, accepted, asks, &bounds.low)?;
        let high = self.static_part(alloc, notes, accepted, asks, &bounds.high)?;
        let test = Test::Ordered(low.value, high.value);
        notes.statics.demand(bounds.low.pos(), self.generic, test)?;
        Ok(between(low.value, high.value))
    }

    /// A mark that begins at this place, with a constraint (RM 3.2.2).
    #[tactic(auto, using(crate::proofs::PartLaws::parts))]
    fn narrowed(
        &self,
        alloc: Global,
        notes: &mut Notes,
        pos: Pos,
        subtype: Subtype,
        bounds: &Bounds,
    ) -> Result<Subtype, Failure<Refusal>>
        ensures { ComesTo subtype_in self.now notes.old notes.new
            (λ k env s. answer_at pos (narrowing env s (subtype_in k subtype) bounds.now).outcome) result }
    {
        let accepted = Accepted::Fitting(subtype.of);
        let range = self.bounded(alloc, notes, accepted, subtype.range, bounds)?;
        constrained_mark(self.site.step, pos, subtype, range)
    }

    /// A subtype indication: a mark, which may have a constraint (RM 3.2.2). Refused at the rules' own
    /// place.
    #[tactic(auto, using(crate::proofs::PartLaws::parts))]
    pub fn indicated(
        &self,
        alloc: Global,
        notes: &mut Notes,
        indication: &SubtypeIndication,
    ) -> Result<Subtype, Failure<Refusal>>
        ensures { ComesTo subtype_in self.now notes.old notes.new
            (λ k env s. (rules.indicated env s indication.now).answer) result }
    {
        let site = &self.site;
        let marked = site.mark(alloc, &mut notes.decisions, &indication.mark)?;
        match &indication.constraint {
            Some(bounds) => {
                let pos = indication.mark.pos();
                self.narrowed(alloc, notes, pos, marked.subtype, bounds)
            }
            None => Ok(marked.subtype),
        }
    }
}
