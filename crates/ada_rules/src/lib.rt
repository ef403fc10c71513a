//! The rules of the language: which units are a legal program, what its typed form is, and where a
//! program that is not legal is refused. The definitions stand in `specs/`, by layers:
//!
//! - `Plan`: constructs, their parts and their own rules;
//! - `Types`, `Statics`: types, and what is demanded of static values;
//! - `Entities`, `Environment`: names, regions, and what a construct is looked at in;
//! - `Denoted`, `Expressions`: names and expressions;
//! - `Declarations`, `Statements`, `Subprograms`, `Instances`, `Library`, `Units`: the cases of the
//!   other constructs, up to the whole program;
//! - `Limits`: the counted limits; `Legal`: the verdict; `Refusals`: what a refusal says.
//!
//! Each construct has one case: its parts, in the order of the text, and last one rule of its own.
//! The rules are asked in two steps over the same cases, first those on names, then those on types.
//! Rules on the values of static expressions are collected as demands, which are met in each
//! instance of the generic in whose text they stand.
//!
//! The functions here do nothing: each carries a law of the definitions as its contract.
//!
//! The contract that the layers above use: [`a_refusal_has_a_reason`].
#![tactic(auto)]

ghost use Rattle.std.specs.Prelude.{◌≡◌, ℕ, List, Err};
ghost use Rattle.cov_base.specs.declared.position.Pos.{Pos};
ghost use Rattle.ada_rules.specs.Environment.{Step};
ghost use Rattle.ada_rules.specs.Library.{Library};
ghost use Rattle.ada_rules.specs.Legal.{checked_in, mistyped, unnamed};
ghost use Rattle.ada_rules.specs.Plan.{Offends};
ghost use Rattle.ada_rules.specs.Refusals.{BreaksNames, BreaksTypes, looked_at};

/// Where a step refuses a program, a construct stands in it that fails its case while its parts pass
/// theirs, and the refusal stands at the first token of that construct.
pub fn a_refusal_offends()
    ensures { (step : Step) (l : Library) (main : List ℕ) (p : Pos)
        → (looked_at step l main).answer ≡ Err p → Offends (looked_at step l main).looked_at p }
{}

/// A verdict on names or on types has a reason at its place: a construct that fails its case while
/// its parts pass theirs, or a demand on static values that fails in some instance.
#[tactic(auto, using(crate::proofs::Verdicts::names_broken))]
pub fn a_refusal_has_a_reason()
    ensures names { (l : Library) (main : List ℕ) (p : Pos) → checked_in l main ≡ unnamed p → BreaksNames l main p }
    ensures types { (l : Library) (main : List ℕ) (p : Pos) → checked_in l main ≡ mistyped p → BreaksTypes l main p }
{}
