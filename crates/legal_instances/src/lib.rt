//! Laws of legal programs over their units and instances, on those of `legal_programs`:
//!
//! - the order of dependence is whole (`Ordered`);
//! - where units stand in the order of the text (`InOrder`), the instances of the typed program stand
//!   beside their facts, and what stands in them is looked at there (`Looked`);
//! - declarations look statically no further than at what was declared before (`Within`), so constants have
//!   the values of their expressions in each instance (`Resolved`).
//!
//! The functions here do nothing: each carries a law of the definitions as its contract.
#![tactic(auto)]

ghost use Rattle.std.specs.Prelude.{codes, ℕ, List, Option, ◌≡◌};
ghost use Rattle.ada_meaning.specs.Bodies.{StandsIn};
ghost use Rattle.ada_meaning.specs.Program.{Program};
ghost use Rattle.ada_meaning.specs.WellFormed.{IsWellFormed};
ghost use Rattle.ada_rules.specs.Legal.{checked_with, legal};
ghost use Rattle.ada_rules.specs.Entities.{Standard, whole_standard};
ghost use Rattle.ada_rules.specs.Environment.{State};
ghost use Rattle.ada_rules.specs.Library.{library_of};
ghost use Rattle.ada_syntax.specs.declared.unit.Unit.{Unit as LibraryUnit};
ghost use Rattle.legal_programs.specs.DecisionPlaces.{units_decisions};
ghost use Rattle.legal_programs.specs.InText.{Rise};
ghost use Rattle.legal_programs.specs.TextPlaces.{units_places};
ghost use Rattle.legal_programs.specs.Final.{IsServed};
ghost use Rattle.legal_programs.specs.Growing.{Extends};
ghost use Rattle.legal_programs.specs.Walked.{IsLegal};
ghost use Rattle.legal_laws.specs.Valued.{AreFactsOf};
ghost use Rattle.legal_instances.specs.InOrder.{UnitsRise};
ghost use Rattle.legal_instances.specs.Looked.{AreLookedAt};
ghost use Rattle.legal_instances.specs.Ordered.{IsWholeOrder};
ghost use Rattle.legal_instances.specs.Worked.{worked_program, worked_units};
ghost use Rattle.legal_instances.specs.Resolved.{AreOwnValues, AreTextsFormed, HaveConstants, HaveStaticActuals};

/// The order of dependence of a legal program is whole: what other units see of a unit is looked at once for
/// each that is no body of a package, behind that of all that it names.
pub fn orders_of_legal_programs_are_whole()
    ensures { (standard : Standard) (units : List LibraryUnit) (main : List ℕ) (p : Program)
        → IsLegal (library_of standard units) main p → IsWholeOrder (library_of standard units) }
{}

/// Where units stand in the order of the text, the instances of a legal program stand beside their facts, by
/// the numbers that they have in the text; and what stands in an instance is looked at there.
pub fn instances_have_their_facts()
    ensures facts { (standard : Standard) (units : List LibraryUnit) (main : List ℕ) (p : Program)
        → (is : IsLegal (library_of standard units) main p) → UnitsRise units
        → AreFactsOf p is.walked.world.instances }
    ensures looked_at { (standard : Standard) (units : List LibraryUnit) (main : List ℕ) (p : Program)
        → (is : IsLegal (library_of standard units) main p) → UnitsRise units
        → AreLookedAt is.walked.world.instances is.walked.next.demands p }
{}

/// Constants of a legal program have the values of their expressions in each instance, in the facts and in the
/// typed program; so the program serves each state of its walk in each instance.
pub fn constants_have_their_values()
    ensures own { (units : List LibraryUnit) (main : List ℕ) (p : Program)
        → (is : IsLegal (library_of whole_standard units) main p) → UnitsRise units
        → AreOwnValues is.walked.world.instances p is.walked.next.constants_declared }
    ensures typed { (units : List LibraryUnit) (main : List ℕ) (p : Program)
        → IsLegal (library_of whole_standard units) main p → UnitsRise units → HaveConstants p 1 p.instances }
    ensures served { (units : List LibraryUnit) (main : List ℕ) (p : Program)
        → (is : IsLegal (library_of whole_standard units) main p) → UnitsRise units
        → (o : Option ℕ) (inst : ℕ) → StandsIn p o inst → (s : State) → Extends s is.walked.next
        → IsServed is.walked.world.instances p o inst s }
{}

/// What an instance of a legal program has for its formals is what the static expressions of the actuals come to
/// in the typed program, in no instance.
pub fn actuals_have_their_values()
    ensures { (units : List LibraryUnit) (main : List ℕ) (p : Program)
        → IsLegal (library_of whole_standard units) main p → UnitsRise units → HaveStaticActuals p }
{}

/// A program that the rules of the whole language accept is well-formed, where its units, its statements and its
/// conditions stand in the order of the text, where the subtypes that its instances are given have bounds, and where
/// its objects of the library level and its bodies are well-formed in each instance.
pub fn legal_programs_are_well_formed_but_for_their_texts()
    ensures { (units : List LibraryUnit) (main : List ℕ) (p : Program)
        → checked_with whole_standard units main ≡ legal p → UnitsRise units
        → Rise (units_places units) → Rise (units_decisions units) → AreTextsFormed p → IsWellFormed p }
{}

/// A worked program with an instance meets these premises.
pub fn a_worked_program_with_an_instance_meets_the_premises()
    ensures is_legal { checked_with whole_standard worked_units (codes "main") ≡ legal worked_program }
    ensures units { UnitsRise worked_units }
    ensures statements { Rise (units_places worked_units) }
    ensures decisions { Rise (units_decisions worked_units) }
    ensures formed { AreTextsFormed worked_program }
{}
