//! The actuals of an instance (Ada RM 2012, 12.3 to 12.6).

ghost use Rattle.std.specs.Prelude.{◌≡◌, [], length, nat_eq, option_map, slice_get, OnOk};
ghost use Rattle.ada_meaning.specs.Types.{Static};
ghost use Rattle.ada_rules.specs.Entities.{formal_object};
ghost use Rattle.ada_rules.specs.Instances as rules;
ghost use Rattle.ada_rules.specs.Plan.{answer_at};
ghost use Rattle.ada_syntax.specs.Tree.{expr_pos};
ghost use Rattle.ada_entities.specs.EntityViews.{Tables, entity_of};
ghost use Rattle.ada_entities.specs.Views.{subtype_of};
ghost use Rattle.program_walk.specs.Places.{ComesTo};
ghost use Rattle.specifications.specs.Actuals.{actual_of, actuals_of, actuals_in};
ghost use Rattle.specifications.specs.Passing.{by_name, by_other, name_plan, plan_for, formals_seen, kept, IsForName, IsNoActual, IsCounted};

use crate::actual::InstanceActual;
use crate::instantiation::Instantiation;
use crate::profiles::Matching;
use ada_entities::{Entity, Refusal, Region, Subtype, range_seen, refused};
use ada_phrases::{Denoted, Role, Step};
use ada_syntax::{Expr, ExprKind, Name};
use cov_base::{Failure, Pos};
use program_walk::{Accepted, Asks, Notes, Place};
use std::alloc::{AllocError, Global};

/// Where the actuals of an instance stand, and the number of the instance.
#[derive(Clone, Copy)]
pub struct InstanceWalk<'a> {
    pub place: Place<'a>,
    pub number: u32,
}

/// The formal at this place, if there are so many. What is no generic has no formals.
fn formal_at(formals: Option<&Region>, place: usize) -> Option<Entity>
    ensures { (k : Tables) → option_map (entity_of k) result
        ≡ option_map (λ e. e.1) (slice_get (formals_seen k formals.entry) place) }
{
    match formals {
        Some(formals) => formals.at(place),
        None => None,
    }
}

/// How many formals there are.
fn count_formals(formals: Option<&Region>) -> usize
    ensures { (k : Tables) → result ≡ length (formals_seen k formals.entry) }
{
    match formals {
        Some(formals) => formals.len(),
        None => 0,
    }
}

/// Keeps an actual where there is a formal for it.
fn keep(
    actuals: &mut Vec<InstanceActual>,
    formal: Option<Entity>,
    actual: InstanceActual,
) -> Result<(), AllocError>
    ensures { OnOk result (actuals.new.items ≡ kept formal actuals.old.items actual) }
{
    match formal {
        Some(_) => {
            actuals.push(actual)?;
            Ok(())
        }
        None => Ok(()),
    }
}

/// Whether there are as many actuals as formals.
fn are_as_many(formals: usize, actuals: usize) -> bool
    ensures { result ≡ nat_eq formals actuals }
{
    formals == actuals
}

/// What no name gives for a formal type or subprogram: the step of names goes on with something in
/// place of it, and the step of types refuses what begins at this place.
fn no_actual(step: Step, pos: Pos) -> Result<InstanceActual, Failure<Refusal>>
    ensures { IsNoActual step pos result }
{
    match step {
        Step::Naming => Ok(InstanceActual::any()),
        Step::Typing => Err(refused(pos)),
    }
}

impl InstanceWalk<'_> {
    /// For a formal object of this subtype a static expression of the type and the values that the
    /// subtype has with the actuals so far (RM 12.4).
    #[tactic(auto, using(crate::proofs::PassingLaws::parts))]
    fn object_actual(
        &self,
        alloc: Global,
        notes: &mut Notes,
        actuals: &[InstanceActual],
        formal: Subtype,
        expr: &Expr,
    ) -> Result<InstanceActual, Failure<Refusal>>
        ensures { (e : Static) → ComesTo actual_of self.now.place notes.old notes.new
            (λ k env s. answer_at (expr_pos expr.now) (rules.actual_plan env s self.now.number
            (actuals_of k actuals.now) (formal_object (subtype_of k.types formal) e) expr.now).outcome) result }
    {
        let instantiation = Instantiation {
            number: self.number,
            actuals,
        };
        let accepted = Accepted::Fitting(instantiation.type_seen(formal.of));
        let asks = Asks::Within(range_seen(formal.range, self.number));
        let value = self.place.static_part(alloc, notes, accepted, asks, expr)?;
        Ok(InstanceActual::Object(value.value))
    }

    /// What a name at this place gives for a formal type or subprogram; the step of names goes on with
    /// something in place of it.
    #[tactic(auto, using(crate::proofs::PassingLaws::parts))]
    fn for_name(
        &self,
        actuals: &[InstanceActual],
        formal: Entity,
        pos: Pos,
        denoted: &Denoted,
    ) -> Result<InstanceActual, Failure<Refusal>>
        ensures { IsForName self.now actuals.now formal pos denoted.now result }
    {
        match self.place.site.step {
            Step::Naming => Ok(InstanceActual::any()),
            Step::Typing => {
                let matching = Matching {
                    symbols: self.place.site.symbols,
                    instantiation: Instantiation {
                        number: self.number,
                        actuals,
                    },
                };
                let found = matching.actual_for_name(formal, denoted)?;
                found.ok_or(refused(pos))
            }
        }
    }

    /// For a formal type or subprogram a name, which begins at this place (RM 12.5, 12.6).
    #[tactic(auto, using(crate::proofs::PassingLaws::parts))]
    fn named_actual(
        &self,
        alloc: Global,
        notes: &mut Notes,
        actuals: &[InstanceActual],
        formal: Entity,
        pos: Pos,
        name: &Name,
    ) -> Result<InstanceActual, Failure<Refusal>>
        ensures { ComesTo actual_of self.now.place notes.old notes.new
            (λ k env s. answer_at pos (by_name env s self.now.number (actuals_of k actuals.now) (entity_of k formal)
            name.now).outcome) result }
    {
        let site = &self.place.site;
        let denoted = site.denoted(alloc, &mut notes.decisions, name)?;
        let actual = self.for_name(actuals, formal, pos, &denoted);
        drop(denoted);
        actual
    }

    /// For a formal type or subprogram no other expression will do; the step of names looks at it for
    /// its names. What it comes to apart from them is known before, and `and` drops what it denotes.
    #[tactic(auto, using(crate::proofs::PassingLaws::parts))]
    fn other_actual(
        &self,
        alloc: Global,
        notes: &mut Notes,
        expr: &Expr,
    ) -> Result<InstanceActual, Failure<Refusal>>
        ensures { ComesTo actual_of self.now.place notes.old notes.new
            (λ k env s. answer_at (expr_pos expr.now) (by_other env s expr.now).outcome) result }
    {
        let site = &self.place.site;
        let actual = no_actual(site.step, expr.pos());
        site.judged(alloc, Role::Itself, &mut notes.decisions, expr)
            .and(actual)
    }

    /// An actual for a formal that is no object.
    #[tactic(auto, using(crate::proofs::PassingLaws::parts))]
    fn name_or_other(
        &self,
        alloc: Global,
        notes: &mut Notes,
        actuals: &[InstanceActual],
        formal: Entity,
        expr: &Expr,
    ) -> Result<InstanceActual, Failure<Refusal>>
        ensures { ComesTo actual_of self.now.place notes.old notes.new
            (λ k env s. answer_at (expr_pos expr.now) (name_plan env s self.now.number (actuals_of k actuals.now)
            (entity_of k formal) expr.now).outcome) result }
    {
        match &expr.kind {
            ExprKind::Name(name) => {
                self.named_actual(alloc, notes, actuals, formal, expr.pos, name)
            }
            _ => self.other_actual(alloc, notes, expr),
        }
    }

    /// An actual for this formal, behind these (RM 12.3).
    #[tactic(auto, using(crate::proofs::PassingLaws::parts))]
    fn actual(
        &self,
        alloc: Global,
        notes: &mut Notes,
        actuals: &[InstanceActual],
        formal: Entity,
        expr: &Expr,
    ) -> Result<InstanceActual, Failure<Refusal>>
        ensures { ComesTo actual_of self.now.place notes.old notes.new
            (λ k env s. answer_at (expr_pos expr.now) (rules.actual_plan env s self.now.number
            (actuals_of k actuals.now) (entity_of k formal) expr.now).outcome) result }
    {
        match formal {
            Entity::FormalObject(subtype, _, _) => {
                self.object_actual(alloc, notes, actuals, subtype, expr)
            }
            _ => self.name_or_other(alloc, notes, actuals, formal, expr),
        }
    }

    /// An actual that there is no formal for is looked at for its names.
    #[tactic(auto, using(crate::proofs::PassingLaws::parts))]
    fn any_actual(
        &self,
        alloc: Global,
        notes: &mut Notes,
        expr: &Expr,
    ) -> Result<InstanceActual, Failure<Refusal>>
        ensures { ComesTo actual_of self.now.place notes.old notes.new
            (λ k env s. answer_at (expr_pos expr.now) (rules.any_plan env s expr.now).outcome) result }
    {
        let site = &self.place.site;
        let any = InstanceActual::any();
        match &expr.kind {
            ExprKind::Name(name) => site.denoted(alloc, &mut notes.decisions, name).and(Ok(any)),
            _ => site
                .judged(alloc, Role::Itself, &mut notes.decisions, expr)
                .and(Ok(any)),
        }
    }

    /// An actual for this formal, if there is one.
    #[tactic(auto, using(crate::proofs::PassingLaws::parts))]
    fn actual_or_any(
        &self,
        alloc: Global,
        notes: &mut Notes,
        actuals: &[InstanceActual],
        formal: Option<Entity>,
        expr: &Expr,
    ) -> Result<InstanceActual, Failure<Refusal>>
        ensures { ComesTo actual_of self.now.place notes.old notes.new
            (λ k env s. answer_at (expr_pos expr.now) (plan_for env s self.now.number (actuals_of k actuals.now)
            (option_map (entity_of k) formal) expr.now).outcome) result }
    {
        match formal {
            Some(formal) => self.actual(alloc, notes, actuals, formal, expr),
            None => self.any_actual(alloc, notes, expr),
        }
    }

    /// There are as many actuals as formals (RM 12.3); the step of names does not count them.
    fn counted(
        &self,
        pos: Pos,
        formals: usize,
        actuals: Vec<InstanceActual>,
        count: usize,
    ) -> Result<Vec<InstanceActual>, Failure<Refusal>>
        ensures { IsCounted self.now.place.site.step pos formals count actuals.items result }
    {
        match self.place.site.step {
            Step::Naming => Ok(actuals),
            Step::Typing => {
                if are_as_many(formals, count) {
                    Ok(actuals)
                } else {
                    Err(refused(pos))
                }
            }
        }
    }

    /// The actuals of an instance whose text begins at this place, for these formals of its generic: as
    /// many as there are, each seen with those before it (RM 12.3). Refused at the rules' own place.
    #[tactic(auto, using(crate::proofs::PassingLaws::parts))]
    pub fn actuals(
        &self,
        alloc: Global,
        notes: &mut Notes,
        pos: Pos,
        formals: Option<&Region>,
        exprs: &[Expr],
    ) -> Result<Vec<InstanceActual>, Failure<Refusal>>
        ensures { ComesTo actuals_in self.now.place notes.old notes.new
            (λ k env s. (rules.actuals_judged env s pos self.now.number [] (formals_seen k formals.entry)
            exprs.now).answer) result }
    {
        let mut actuals = Vec::new(alloc);
        for (place, expr) in exprs.iter().enumerate() {
            let formal = formal_at(formals, place);
            let actual = self.actual_or_any(alloc, notes, actuals.as_slice(), formal, expr)?;
            keep(&mut actuals, formal, actual)?;
        }
        self.counted(pos, count_formals(formals), actuals, exprs.len())
    }
}
