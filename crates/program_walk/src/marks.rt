//! Names of types and subtypes (Ada RM 2012, 3.2.2, 3.5). What a name denotes is given to `drop` by name: the
//! end of a scope would write out the drop of each part of it.

ghost use Rattle.std.specs.Prelude.{◌≡◌, option_map, unwrap_or};
ghost use Rattle.std.specs.Option.{option_and_then};
ghost use Rattle.ada_rules.specs.Expressions as rules;
ghost use Rattle.ada_entities.specs.EntityViews.{Tables};
ghost use Rattle.ada_phrases.specs.DenotedView.{denotes};
ghost use Rattle.program_walk.specs.Marks.{marked_of, IsMark, IsScalarMark};
ghost use Rattle.program_walk.specs.Sites.{ComesTo};

use crate::site::Site;
use ada_entities::{Identity, Refusal, Subtype, refused};
use ada_phrases::{Decisions, Denoted, Step};
use ada_syntax::Name;
use cov_base::{Failure, Pos};
use std::alloc::Global;

/// A type or subtype that a name names: which it is, and the subtype. What the step of names goes on
/// with in place of one is none that is declared.
#[derive(Clone, Copy)]
pub struct Marked {
    pub identity: Option<Identity>,
    pub subtype: Subtype,
}

impl Marked {
    /// What the step of names goes on with.
    fn any() -> Marked
        ensures { (k : Tables) → marked_of k result ≡ rules.any_mark }
    {
        Marked {
            identity: None,
            subtype: Subtype::integer(),
        }
    }

    /// The type or subtype, where a name denotes one.
    fn of(denoted: &Denoted) -> Option<Marked>
        ensures { (k : Tables) → option_map (marked_of k) result ≡ rules.marked (denotes k denoted.now) }
    {
        match denoted {
            Denoted::Mark(identity, subtype) => Some(Marked {
                identity: Some(*identity),
                subtype: *subtype,
            }),
            Denoted::Value(_)
            | Denoted::Variable(_)
            | Denoted::Routine(_)
            | Denoted::Call(_, _)
            | Denoted::Exception(_)
            | Denoted::Unit(_)
            | Denoted::TestIo
            | Denoted::Thing => None,
        }
    }

    /// The same where it is scalar (RM 3.5).
    fn scalar(self) -> Option<Marked>
        ensures { (k : Tables) → option_map (marked_of k) result ≡ rules.scalar_only (marked_of k self) }
    {
        if self.subtype.of.is_scalar() {
            Some(self)
        } else {
            None
        }
    }

    /// The scalar type or subtype, where a name denotes one.
    fn scalar_of(denoted: &Denoted) -> Option<Marked>
        ensures { (k : Tables) → option_map (marked_of k) result
            ≡ option_and_then rules.scalar_only (rules.marked (denotes k denoted.now)) }
    {
        match Marked::of(denoted) {
            Some(marked) => marked.scalar(),
            None => None,
        }
    }

    /// What the step of names has of it.
    fn or_any(found: Option<Marked>) -> Marked
        ensures { (k : Tables) → marked_of k result ≡ unwrap_or (option_map (marked_of k) found) rules.any_mark }
    {
        match found {
            Some(marked) => marked,
            None => Marked::any(),
        }
    }
}

/// The type or subtype that a name at this place denotes.
fn mark(step: Step, pos: Pos, denoted: &Denoted) -> Result<Marked, Failure<Refusal>>
    ensures { IsMark step pos denoted.now result }
{
    let found = Marked::of(denoted);
    match step {
        Step::Naming => Ok(Marked::or_any(found)),
        Step::Typing => found.ok_or(refused(pos)),
    }
}

/// The scalar type or subtype that a name at this place denotes.
fn scalar_mark(step: Step, pos: Pos, denoted: &Denoted) -> Result<Marked, Failure<Refusal>>
    ensures { IsScalarMark step pos denoted.now result }
{
    match step {
        Step::Naming => Ok(Marked::or_any(Marked::of(denoted))),
        Step::Typing => Marked::scalar_of(denoted).ok_or(refused(pos)),
    }
}

impl Site<'_> {
    /// A type or subtype, by its name (RM 3.2.2). Refused at the rules' own place.
    #[tactic(auto, using(crate::proofs::Parts::parts))]
    pub fn mark(
        &self,
        alloc: Global,
        decisions: &mut Decisions,
        name: &Name,
    ) -> Result<Marked, Failure<Refusal>>
        ensures { ComesTo marked_of self.now decisions.old decisions.new
            (λ env s. (rules.mark_part env s name.now).answer) result }
    {
        let denoted = self.denoted(alloc, decisions, name)?;
        let found = mark(self.step, name.pos(), &denoted);
        drop(denoted);
        found
    }

    /// A scalar type or subtype, by its name (RM 3.5). Refused at the rules' own place.
    #[tactic(auto, using(crate::proofs::Parts::parts))]
    pub fn scalar_mark(
        &self,
        alloc: Global,
        decisions: &mut Decisions,
        name: &Name,
    ) -> Result<Marked, Failure<Refusal>>
        ensures { ComesTo marked_of self.now decisions.old decisions.new
            (λ env s. (rules.scalar_mark env s name.now).answer) result }
    {
        let denoted = self.denoted(alloc, decisions, name)?;
        let found = scalar_mark(self.step, name.pos(), &denoted);
        drop(denoted);
        found
    }
}
