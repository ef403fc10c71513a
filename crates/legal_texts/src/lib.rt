//! Legal programs are well-formed: the last law, on those of `legal_instances`. What stands in the
//! text of units is well-formed in each of its instances, where the units are written as the grammar
//! ensures (`UnitTexts`):
//!
//! - what units see of each other only grows, so that a specification that is looked at twice says
//!   the same (`Leading`);
//! - all that units see of each other is known wherever it is seen: declarations of packages, what
//!   instances show, and the subprograms that bodies make. The text of a generic is looked at again in
//!   each of its instances, where its formals are known by what they are given;
//! - each body has a number of its own (`Numbers`), and marks are told by their identities, so that a
//!   body has the parameters of the declaration that it completes (`Told`).
//!
//! The functions here do nothing: each carries a law of the definitions as its contract.
#![tactic(auto)]

ghost use Rattle.std.specs.Prelude.{codes, IfOk, IfSome, List, Some, true, ℕ, ◌≡◌};
ghost use Rattle.cov_base.specs.Lists.{Everywhere};
ghost use Rattle.cov_base.specs.declared.position.Pos.{Pos};
ghost use Rattle.ada_syntax.specs.declared.declaration.Declaration.{Declaration};
ghost use Rattle.ada_syntax.specs.declared.unit.BodyItem.{BodyItem};
ghost use Rattle.ada_syntax.specs.declared.unit.PackageItem.{PackageItem};
ghost use Rattle.ada_meaning.specs.Bodies.{StandsIn};
ghost use Rattle.ada_meaning.specs.Program.{Program};
ghost use Rattle.ada_meaning.specs.WellFormed.{IsWellFormed};
ghost use Rattle.ada_rules.specs.Declarations.{declared};
ghost use Rattle.ada_rules.specs.Entities.{Routine, routine, whole_standard};
ghost use Rattle.ada_rules.specs.Environment.{Env, State};
ghost use Rattle.ada_rules.specs.Subprograms.{Profile, conforms};
ghost use Rattle.ada_rules.specs.Units.{body_items, package_items};
ghost use Rattle.ada_rules.specs.Legal.{checked_with, legal};
ghost use Rattle.ada_rules.specs.Library.{Library, all_bodies};
ghost use Rattle.ada_syntax.specs.declared.unit.Unit.{Unit as LibraryUnit};
ghost use Rattle.legal_instances.specs.InOrder.{UnitsRise};
ghost use Rattle.legal_instances.specs.Resolved.{AreTextsFormed};
ghost use Rattle.legal_instances.specs.Worked.{worked_units};
ghost use Rattle.legal_laws.specs.Bounded.{AreObjectsBounded, IsBounded};
ghost use Rattle.legal_programs.specs.DecisionPlaces.{units_decisions};
ghost use Rattle.legal_programs.specs.InText.{Rise};
ghost use Rattle.legal_programs.specs.TextPlaces.{units_places};
ghost use Rattle.legal_programs.specs.Walked.{IsLegal};
ghost use Rattle.legal_texts.specs.Numbers.{AreNumbered};
ghost use Rattle.legal_programs.specs.PlainUnits.{ArePlainUnits};
ghost use Rattle.legal_texts.specs.Told.{IsAsDeclared, IsOpen, IsTold, IsToldEntity, IsToldPlace};
ghost use Rattle.legal_texts.specs.Told.{IsToldRegion, Table, TellsBehind, TellsOn};
ghost use Rattle.legal_texts.specs.UnitTexts.{AreUnitTexts};
ghost use Rattle.legal_texts.specs.Worked.{package_program, package_units, plain_program, plain_units};

use legal_instances::{
    actuals_have_their_values, constants_have_their_values, instances_have_their_facts,
    legal_programs_are_well_formed_but_for_their_texts, orders_of_legal_programs_are_whole,
};

/// A program that the rules of the whole language accept is well-formed, in each text of its units and in each instance
/// of it, and the types of the objects of its subprograms and of the library level have bounds, where its units, its
/// statements and its conditions stand in the order of the text.
pub fn legal_programs_are_well_formed()
    ensures formed { (units : List LibraryUnit) (main : List ℕ) (p : Program)
        → checked_with whole_standard units main ≡ legal p → UnitsRise units → Rise (units_places units)
        → Rise (units_decisions units) → AreUnitTexts units → IsWellFormed p }
    ensures bounded { (units : List LibraryUnit) (main : List ℕ) (p : Program)
        → checked_with whole_standard units main ≡ legal p → UnitsRise units → AreUnitTexts units → AreObjectsBounded p }
    ensures texts { (units : List LibraryUnit) (main : List ℕ) (p : Program)
        → checked_with whole_standard units main ≡ legal p → UnitsRise units → AreUnitTexts units → AreTextsFormed p }
    ensures library { (units : List LibraryUnit) (main : List ℕ) (p : Program)
        → checked_with whole_standard units main ≡ legal p → UnitsRise units → AreUnitTexts units
        → Everywhere (λ o. (i : ℕ) → StandsIn p o.generic i → IsBounded p i o.subtype) p.objects }
{
    orders_of_legal_programs_are_whole();
    instances_have_their_facts();
    constants_have_their_values();
    actuals_have_their_values();
    legal_programs_are_well_formed_but_for_their_texts();
}

/// In a legal program each body has a number of its own: no other one has its name in its package, so it stands
/// at its place among all.
pub fn bodies_have_numbers_of_their_own()
    ensures { (l : Library) (main : List ℕ) (p : Program) → IsLegal l main p → AreNumbered (all_bodies l.units) }
{}

/// Where the marks of a region are told by their identities, they are so behind each declaration, and behind the
/// declarations and the bodies of packages, where all marks that names may lead to are told; and then a body that
/// conforms to a declaration has its parameters and its result (RM 6.3.1).
pub fn marks_are_told_by_their_identities()
    ensures declarations { (table : Table) (env : Env) (s : State) (d : Declaration) → IsOpen table env s
        → IsToldRegion table env.local → IfOk (declared env s d).answer (TellsOn table env) }
    ensures packages { (table : Table) (env : Env) (s : State) (p : Pos) (items : List PackageItem)
        → IsToldPlace table env s → IfOk (package_items env s p items).answer (TellsBehind table env) }
    ensures bodies { (table : Table) (env : Env) (s : State) (p : Pos) (items : List BodyItem)
        → IsToldPlace table env s → IfOk (body_items env s p items).answer (TellsBehind table env) }
    ensures conforming { (table : Table) (r : Routine) (q : Profile) → IsToldEntity table (routine r)
        → Everywhere (IsTold table) q.parameters → IfSome q.result (IsTold table)
        → conforms q (Some (routine r)) ≡ true → IsAsDeclared r q }
{}

/// Worked programs meet the premises: one of a package and a subprogram, and one in which a package declares a
/// subprogram. The units of the worked program with an instance are written as the grammar ensures.
pub fn worked_programs_meet_the_premises()
    ensures is_legal { checked_with whole_standard plain_units (codes "main") ≡ legal plain_program }
    ensures packages { ArePlainUnits plain_units }
    ensures units { UnitsRise plain_units }
    ensures statements { Rise (units_places plain_units) }
    ensures decisions { Rise (units_decisions plain_units) }
    ensures texts { AreUnitTexts plain_units }
    ensures calls_are_legal { checked_with whole_standard package_units (codes "main") ≡ legal package_program }
    ensures calls_packages { ArePlainUnits package_units }
    ensures calls_units { UnitsRise package_units }
    ensures calls_statements { Rise (units_places package_units) }
    ensures calls_decisions { Rise (units_decisions package_units) }
    ensures calls_texts { AreUnitTexts package_units }
    ensures instance { AreUnitTexts worked_units }
{}
