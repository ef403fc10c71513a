//! Expressions that have to be static (Ada RM 2012, 4.9). What is used no longer is given to `drop` by name:
//! the end of a scope would write out the drop of each part of it.

ghost use Rattle.std.specs.Prelude.{◌≡◌};
ghost use Rattle.ada_rules.specs.Expressions as rules;
ghost use Rattle.ada_entities.specs.EntityViews.{Tables};
ghost use Rattle.program_walk.specs.Places.{ComesTo};
ghost use Rattle.program_walk.specs.Parts.{accepts_of, asks_of, valued_of, IsDemanded};

use crate::asks::{Accepted, Asks};
use crate::place::{Notes, Place};
use ada_demands::Statics;
use ada_entities::{Refusal, refused};
use ada_phrases::{Kind, Role, StaticTree, Step};
use ada_syntax::Expr;
use ada_tree::StaticValue;
use cov_base::{Failure, Pos};
use std::alloc::Global;

/// A static value as it is called in the text, and what the expression fits.
#[derive(Clone, Copy)]
pub struct Valued {
    pub value: StaticValue,
    pub kind: Kind,
}

impl Valued {
    /// What the step of names goes on with.
    fn any() -> Valued
        ensures { (k : Tables) → valued_of k result ≡ rules.any_valued }
    {
        Valued {
            value: StaticValue::Number(0),
            kind: Kind::Universal,
        }
    }
}

impl Place<'_> {
    /// The value of an expression that begins at this place, with the demand that it makes, in the step of
    /// types.
    #[tactic(auto, using(crate::proofs::PartLaws::parts))]
    fn demanded(
        &self,
        alloc: Global,
        statics: &mut Statics,
        pos: Pos,
        accepted: Accepted,
        asks: Asks,
        kind: Kind,
        known: Option<StaticTree>,
    ) -> Result<Valued, Failure<Refusal>>
        ensures { IsDemanded self.now statics.old statics.new pos accepted asks kind known result }
    {
        let Some(tree) = known else {
            return Err(refused(pos));
        };
        if !accepted.accepts(kind) {
            drop(tree);
            return Err(refused(pos));
        }
        let value = statics.static_known(alloc, self.instances, self.generic, &tree)?;
        statics.demand(pos, self.generic, asks.test(tree))?;
        Ok(Valued { value, kind })
    }

    /// An expression that has to be static, of a type that is accepted. It makes a demand (RM 4.9). Refused
    /// at the rules' own place.
    #[tactic(auto, using(crate::proofs::PartLaws::parts))]
    pub fn static_part(
        &self,
        alloc: Global,
        notes: &mut Notes,
        accepted: Accepted,
        asks: Asks,
        expr: &Expr,
    ) -> Result<Valued, Failure<Refusal>>
        ensures { ComesTo valued_of self.now notes.old notes.new
            (λ k env s. (rules.static_part env s (accepts_of k.types accepted) (asks_of k asks) expr.now).answer) result }
    {
        let value = self
            .site
            .judged(alloc, Role::Itself, &mut notes.decisions, expr)?;
        match self.site.step {
            Step::Naming => {
                drop(value);
                Ok(Valued::any())
            }
            Step::Typing => {
                let pos = expr.pos();
                let statics = &mut notes.statics;
                drop(value.form);
                self.demanded(alloc, statics, pos, accepted, asks, value.kind, value.known)
            }
        }
    }
}
