//! Where a construct stands (Ada RM 2012, 8.1 to 8.3). What is refused is given to `drop` by name: the end
//! of a scope would write out the drop of each part of it.

ghost use Rattle.std.specs.Prelude.{◌≡◌, IfOk};
ghost use Rattle.ada_rules.specs.Entities.{key};
ghost use Rattle.ada_rules.specs.Environment.{Env};
ghost use Rattle.ada_rules.specs.Expressions as rules;
ghost use Rattle.ada_entities.specs.EntityViews.{Tables};
ghost use Rattle.ada_phrases.specs.ada_judged.specs.JudgedView.{judged_of};
ghost use Rattle.ada_phrases.specs.Closing.{role_of};
ghost use Rattle.ada_phrases.specs.DecisionView.{decision_of};
ghost use Rattle.ada_phrases.specs.DenotedView.{denotes};
ghost use Rattle.program_walk.specs.Sites.{ComesTo, IsVisibleAt};
ghost use Rattle.program_walk.specs.Exact.{IsScopeOf};

use crate::symbols::Symbols;
use ada_entities::{Entity, Refusal, key};
use ada_phrases::{Decisions, Denoted, Judged, Role, Scope, Step, decision, denoted, judged};
use ada_syntax::{Expr, Identifier, Name};
use ada_tree::Decision;
use cov_base::{Failure, Pos};
use std::alloc::{AllocError, Global};

/// Where a construct stands: the step, what is declared so far, and the package in whose text it is, by
/// the number of its unit.
#[derive(Clone, Copy)]
pub struct Site<'a> {
    pub step: Step,
    pub symbols: &'a Symbols,
    pub own_package: Option<u32>,
}

impl Site<'_> {
    /// The same with its tables one by one.
    fn scope(&self) -> Scope<'_>
        ensures { IsScopeOf self.now result }
    {
        Scope {
            step: self.step,
            types: &self.symbols.types,
            routines: &self.symbols.routines,
            units: &self.symbols.units,
            regions: &self.symbols.regions,
            own_package: self.own_package,
        }
    }

    /// What an identifier denotes (RM 8.3).
    pub fn visible(
        &self,
        alloc: Global,
        identifier: &Identifier,
    ) -> Result<Option<Entity>, AllocError>
        ensures { IfOk result (IsVisibleAt self.now (key identifier.now)) }
    {
        let name = key(alloc, identifier)?;
        Ok(self.symbols.regions.visible(name.as_slice()))
    }

    /// An expression (RM 4.4), by itself or as an operand of the decision round it. Refused at the
    /// rules' own place.
    #[tactic(auto, using(crate::proofs::Parts::parts))]
    pub fn judged(
        &self,
        alloc: Global,
        role: Role,
        decisions: &mut Decisions,
        expr: &Expr,
    ) -> Result<Judged, Failure<Refusal>>
        ensures { ComesTo judged_of self.now decisions.old decisions.new
            (λ env s. (rules.judged env (role_of role) s expr.now).answer) result }
    {
        let value = judged(alloc, &self.scope(), role, decisions, expr)?;
        if !self.symbols.extent.knows_judged(&value) {
            drop(value);
            return Err(Failure::WantOfMemory);
        }
        Ok(value)
    }

    /// What a name denotes (RM 4.1). Refused at the rules' own place.
    #[tactic(auto, using(crate::proofs::Parts::parts))]
    pub fn denoted(
        &self,
        alloc: Global,
        decisions: &mut Decisions,
        name: &Name,
    ) -> Result<Denoted, Failure<Refusal>>
        ensures { ComesTo denotes self.now decisions.old decisions.new
            (λ env s. (rules.denoted env s name.now).answer) result }
    {
        let denoted = denoted(alloc, &self.scope(), decisions, name)?;
        if !self.symbols.extent.knows_denoted(&denoted) {
            drop(denoted);
            return Err(Failure::WantOfMemory);
        }
        Ok(denoted)
    }

    /// The expression of the decision of a statement that begins at `pos`: it is one however few conditions it
    /// has (RM 5.3).
    pub fn decision(
        &self,
        alloc: Global,
        decisions: &mut Decisions,
        pos: Pos,
        expr: &Expr,
    ) -> Result<Decision, Failure<Refusal>>
        ensures { ComesTo decision_of self.now decisions.old decisions.new
            (λ env s. (rules.decision env s pos expr.now).answer) result }
    {
        decision(alloc, &self.scope(), decisions, pos, expr)
    }
}
