//! Ranges of indices (Ada RM 2012, 3.6.1).

ghost use Rattle.ada_syntax.specs.declared.declaration.DiscreteRange.TheVariants as discrete;
ghost use Rattle.ada_rules.specs.Declarations as rules;
ghost use Rattle.program_walk.specs.Places.{ComesTo};
ghost use Rattle.program_walk.specs.Subtypes.{subtype_in, IsIndex};

use crate::asks::{Accepted, Asks};
use crate::bounds::between;
use crate::part::Valued;
use crate::place::{Notes, Place};
use ada_demands::{Statics, Test};
use ada_entities::{Refusal, Subtype, refused};
use ada_phrases::Step;
use ada_syntax::{Bounds, DiscreteRange};
use cov_base::{Failure, Pos};
use std::alloc::Global;

impl Place<'_> {
    /// The subtype of an index between two static bounds of one discrete type, in the step of types. The
    /// first bound begins at this place.
    #[tactic(auto, using(crate::proofs::PartLaws::parts))]
    fn between_of(
        &self,
        statics: &mut Statics,
        pos: Pos,
        low: Valued,
        high: Valued,
    ) -> Result<Subtype, Failure<Refusal>>
        ensures { IsIndex self.now statics.old statics.new pos low high result }
    {
        let Some(kind) = low.kind.common(high.kind) else {
            return Err(refused(pos));
        };
        statics.demand(pos, self.generic, Test::Ordered(low.value, high.value))?;
        Ok(Subtype {
            of: kind.settled(),
            range: between(low.value, high.value),
        })
    }

    /// The subtype of an index between two static bounds of one discrete type (RM 3.6.1).
    #[tactic(auto, using(crate::proofs::PartLaws::parts))]
    fn index_between(
        &self,
        alloc: Global,
        notes: &mut Notes,
        bounds: &Bounds,
    ) -> Result<Subtype, Failure<Refusal>>
        ensures { ComesTo subtype_in self.now notes.old notes.new
            (λ k env s. (rules.index_of env s (discrete.Bounds bounds.now)).answer) result }
    {
        let asks = Asks::Within(Subtype::integer().range);
        let low = self.static_part(alloc, notes, Accepted::Discrete, asks, &bounds.low)?;
        let high = self.static_part(alloc, notes, Accepted::Discrete, asks, &bounds.high)?;
        match self.site.step {
            Step::Naming => Ok(Subtype::integer()),
            Step::Typing => {
                let statics = &mut notes.statics;
                self.between_of(statics, bounds.low.pos(), low, high)
            }
        }
    }

    /// The subtype of an index: a scalar one by its mark, or one between two static bounds (RM 3.6.1).
    /// Refused at the rules' own place.
    #[tactic(auto, using(crate::proofs::PartLaws::parts))]
    pub fn index_of(
        &self,
        alloc: Global,
        notes: &mut Notes,
        range: &DiscreteRange,
    ) -> Result<Subtype, Failure<Refusal>>
        ensures { ComesTo subtype_in self.now notes.old notes.new
            (λ k env s. (rules.index_of env s range.now).answer) result }
    {
        match range {
            DiscreteRange::Mark(name) => {
                let site = &self.site;
                let marked = site.scalar_mark(alloc, &mut notes.decisions, name)?;
                Ok(marked.subtype)
            }
            DiscreteRange::Bounds(bounds) => self.index_between(alloc, notes, bounds),
        }
    }
}
