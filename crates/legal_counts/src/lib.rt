//! Laws of legal programs against their text, over the definitions of `ada_rules`, `ada_meaning` and
//! `ada_syntax` alone:
//!
//! - the conditions of decisions stand where those of the units stand, and no `not` stands directly in
//!   another (`ConditionPlaces`); statement obligations hold the decisions;
//! - each node has a token (`Within`) outside the declarations of types, where alternatives and handlers have
//!   choices (`Choices`); so nodes and what types weigh have tokens apart;
//! - each exception that is declared has a token, and by the generics in whose text they stand, nodes, types and
//!   exceptions have tokens apart (`TextParts`);
//! - the words of objects keep to their limit in each instance, and are those that the rules count where
//!   bounds are known (`ObjectWords`);
//! - the objects of the library level have the words, each in the instances in which it stands, that are
//!   counted by units (`LibraryWords`), so the library level has a size;
//! - what other units see of each unit follows from its item, and each exception and each object of the library
//!   level stands in the generic in whose text it is declared (`Seen`).
//!
//! The functions here do nothing: each carries a law of the definitions as its contract, some of them by a
//! call of one whose law they cite.
#![tactic(auto)]

ghost use Rattle.std.specs.Prelude.{true, false, length, slice_get, List, map, reverse, Ok, Option, Some, sum_by, ℕ, ◌+◌, ◌<◌, ◌≤◌, ◌≡◌};
ghost use Rattle.cov_base.specs.Expr.{negates_once};
ghost use Rattle.cov_base.specs.Lists.{Everywhere};
ghost use Rattle.ada_syntax.specs.Nodes.{unit_nodes};
ghost use Rattle.ada_meaning.specs.Collected.{condition_places, decisions_of, labels_of};
ghost use Rattle.ada_meaning.specs.Bodies.{StandsIn};
ghost use Rattle.ada_meaning.specs.Program.{Instance, Program, Subprogram};
ghost use Rattle.ada_meaning.specs.Statics.{values_of};
ghost use Rattle.ada_resolved.specs.Library.{program_size};
ghost use Rattle.ada_resolved.specs.Sizes.{type_size};
ghost use Rattle.legal_counts.specs.LibraryWords.{library_words, noted_words, own_words_of_units};
ghost use Rattle.legal_counts.specs.LibraryWords.{standing, words_at, words_of_units};
ghost use Rattle.legal_counts.specs.Seen.{AreInterfacesOf, IsGenericOfText, IsOfText, IsSeenAsInstance};
ghost use Rattle.legal_types.specs.TextGenerics.{shown_in};
ghost use Rattle.ada_rules.specs.Entities.{Standard};
ghost use Rattle.ada_rules.specs.Limits.{most_words_of_library, most_words_of_subprogram, sum_in, words_in};
ghost use Rattle.ada_syntax.specs.declared.unit.Unit.{Unit as LibraryUnit};
ghost use Rattle.legal_types.specs.legal_instances.specs.InOrder.{UnitsRise};
ghost use Rattle.legal_counts.specs.ObjectWords.{words_of_objects};
ghost use Rattle.legal_laws.specs.Bounded.{IsBounded};
ghost use Rattle.ada_meaning.specs.Tree.{shape_of};
ghost use Rattle.ada_rules.specs.Environment.{interface_of, Step, World};
ghost use Rattle.ada_rules.specs.Units.{is_generic_interface, judged_in, Walked};
ghost use Rattle.ada_rules.specs.Library.{is_instance, is_package_body, Library, library_of};
ghost use Rattle.ada_tree.specs.Weights.{in_instances, text_nodes};
ghost use Rattle.legal_programs.specs.Walked.{IsLegal, IsWalked};
ghost use Rattle.legal_programs.specs.WholeWorld.{IsWholeStandard};
ghost use Rattle.program_weights.specs.BodyTexts.{bodies_in};
ghost use Rattle.legal_counts.specs.Choices.{UnitsHaveChoices};
ghost use Rattle.legal_counts.specs.ConditionPlaces.{units_conditions};
ghost use Rattle.statement_code.specs.Sizes.{block_nodes, subprogram_nodes};
ghost use Rattle.legal_counts.specs.Generics.{generics_of};
ghost use Rattle.legal_counts.specs.Within.{AreWithin};
ghost use Rattle.legal_types.specs.TypeTokens.{units_types};
ghost use Rattle.legal_counts.specs.TextParts.{AreCounted, exceptions_in, nodes_in, role_nodes_in};
ghost use Rattle.program_weights.specs.Entries.{entries_of};
ghost use Rattle.program_weights.specs.TypeWeights.{types_weight, types_weight_in};

/// The conditions of each decision of a legal program stand where those of its units stand, decisions in
/// the order of the text; and no `not` stands directly in another.
pub fn conditions_stand_in_the_text()
    ensures places { (l : Library) (main : List ℕ) (p : Program) → IsLegal l main p → IsWholeStandard l.standard
        → map (λ h. condition_places h.test) (decisions_of p.subprograms) ≡ units_conditions l.units }
    ensures once { (l : Library) (main : List ℕ) (p : Program) → IsLegal l main p → IsWholeStandard l.standard
        → Everywhere (λ h. negates_once (shape_of h.test) ≡ true) (decisions_of p.subprograms) }
{}

/// Each decision of a legal program is held by one of its statement obligations.
pub fn statements_hold_decisions()
    ensures { (l : Library) (main : List ℕ) (p : Program) → IsLegal l main p
        → Everywhere (λ h. h.statement < length (labels_of p.subprograms)) (decisions_of p.subprograms) }
{
    legal_programs::obligations_are_numbered();
}

/// The subprograms of a legal program are those of the bodies of its units, in the order of the text and in
/// the generics in whose text these stand, and a body has no more nodes than its text has tokens that count,
/// even without those of its declarations of types.
pub fn each_node_of_a_body_has_a_token()
    ensures bodies { (l : Library) (main : List ℕ) (p : Program) → IsLegal l main p → IsWholeStandard l.standard
        → UnitsHaveChoices l.units → AreWithin p.subprograms (bodies_in l.units) }
    ensures generics { (l : Library) (main : List ℕ) (p : Program) → (is : IsLegal l main p)
        → map (λ s. s.generic) p.subprograms ≡ generics_of is.walked.world l l.units }
    ensures program { (l : Library) (main : List ℕ) (p : Program) → IsLegal l main p → IsWholeStandard l.standard
        → UnitsHaveChoices l.units → sum_by subprogram_nodes p.subprograms ≤ sum_by unit_nodes l.units }
    ensures each { (l : Library) (main : List ℕ) (p : Program) → IsLegal l main p → IsWholeStandard l.standard
        → UnitsHaveChoices l.units → (limit : ℕ) → sum_by unit_nodes l.units ≤ limit
        → Everywhere (λ s. block_nodes s.body ≤ limit) p.subprograms }
    ensures types { (l : Library) (main : List ℕ) (p : Program) → IsLegal l main p → IsWholeStandard l.standard
        → UnitsHaveChoices l.units
        → sum_by subprogram_nodes p.subprograms + units_types l.units ≤ sum_by unit_nodes l.units }
{}

/// The nodes of the subprograms of a legal program, and what the composite types that it declares weigh, are
/// together no more than its units have tokens that count.
pub fn nodes_and_types_have_tokens()
    ensures { (standard : Standard) (units : List LibraryUnit) (main : List ℕ) (p : Program)
        → (is : IsLegal (library_of standard units) main p) → IsWholeStandard standard → UnitsHaveChoices units
        → sum_by subprogram_nodes p.subprograms + types_weight is.walked.next.types_declared
        ≤ sum_by unit_nodes units }
{
    legal_types::types_weigh_no_more_than_their_text();
}

/// A legal program declares no more exceptions than its units have tokens that count.
pub fn each_exception_has_a_token()
    ensures { (standard : Standard) (units : List LibraryUnit) (main : List ℕ) (p : Program)
        → IsLegal (library_of standard units) main p → length p.declared ≤ sum_by unit_nodes units }
{
    legal_types::orders_of_legal_programs_are_whole();
}

/// By the generics in whose text they stand: the nodes of the subprograms of a legal program, what the composite
/// types that it declares weigh and the exceptions that it declares are together no more than the units have
/// tokens whose text counts for this generic, or, for none, counts once. So it is over the entries of the units
/// in each world with these interfaces, where no unit has more tokens than are counted.
pub fn parts_of_each_generic_have_tokens()
    ensures text { (standard : Standard) (units : List LibraryUnit) (main : List ℕ) (p : Program)
        → (is : IsLegal (library_of standard units) main p) → IsWholeStandard standard → UnitsHaveChoices units
        → (g : Option ℕ) → nodes_in g p.subprograms + types_weight_in g is.walked.next.types_declared
        + exceptions_in g p.declared ≤ role_nodes_in g is.walk.seen.world (library_of standard units) 0 units }
    ensures entries { (standard : Standard) (units : List LibraryUnit) (main : List ℕ) (p : Program)
        → (is : IsLegal (library_of standard units) main p) → IsWholeStandard standard → UnitsHaveChoices units
        → AreCounted units → (w : World) → w.interfaces ≡ is.walk.seen.world.interfaces → (g : Option ℕ)
        → nodes_in g p.subprograms + types_weight_in g is.walked.next.types_declared + exceptions_in g p.declared
        ≤ text_nodes g (entries_of w (library_of standard units)) }
{
    legal_types::types_of_each_generic_weigh_no_more_than_their_text();
    legal_types::orders_of_legal_programs_are_whole();
}

/// The instances of a legal program are those that its units are: each count by the generics of instances comes to
/// the same over the program's instances and over the entries of the units, in each world with these interfaces.
pub fn instances_are_those_that_units_are()
    ensures { (standard : Standard) (units : List LibraryUnit) (main : List ℕ) (p : Program)
        → (is : IsLegal (library_of standard units) main p) → (count : ℕ → ℕ) → (w : World)
        → w.interfaces ≡ is.walk.seen.world.interfaces → sum_by (λ (i : Instance). count i.generic) p.instances
        ≡ in_instances count (entries_of w (library_of standard units)) }
{
    legal_types::orders_of_legal_programs_are_whole();
}

/// The objects of each subprogram of a legal program take no more words than the limit, in each instance in
/// which it stands. Where the bounds of their types are known there, each has a size, and these are the words
/// of their shapes.
pub fn words_are_within_limits()
    ensures counted { (standard : Standard) (units : List LibraryUnit) (main : List ℕ) (p : Program)
        → (is : IsLegal (library_of standard units) main p) → UnitsRise units
        → (m inst : ℕ) (s : Subprogram) → slice_get p.subprograms m ≡ Some s → StandsIn p s.generic inst
        → sum_in is.walked.world.instances inst s.objects ≤ most_words_of_subprogram }
    ensures declared { (standard : Standard) (units : List LibraryUnit) (main : List ℕ) (p : Program)
        → IsLegal (library_of standard units) main p → UnitsRise units
        → (m inst : ℕ) (s : Subprogram) → slice_get p.subprograms m ≡ Some s → StandsIn p s.generic inst
        → Everywhere (IsBounded p inst) s.objects → words_of_objects p inst s.objects ≤ most_words_of_subprogram }
    ensures sized { (standard : Standard) (units : List LibraryUnit) (main : List ℕ) (p : Program)
        → (is : IsLegal (library_of standard units) main p) → UnitsRise units
        → (m inst : ℕ) (s : Subprogram) → slice_get p.subprograms m ≡ Some s → StandsIn p s.generic inst
        → Everywhere (IsBounded p inst) s.objects → Everywhere (λ t.
        type_size (values_of p) inst t ≡ Some (words_in is.walked.world.instances inst t)) s.objects }
{
    legal_types::instances_have_their_facts();
}

/// The words of the objects of the library level of a legal program, counted by units, a generic's at each of
/// its instances, are no more than the limit; and just these are the words by the instances in which the objects
/// stand, those in no generic at the units themselves. Where the bounds of their types are known there, the
/// library has a size, which is its words by instances.
pub fn library_words_are_within_limits()
    ensures units { (l : Library) (main : List ℕ) (p : Program) → (is : IsLegal l main p)
        → words_of_units is.walked.world is.walked.next.unit_words 0 l.units ≤ most_words_of_library }
    ensures bare { (l : Library) (main : List ℕ) (p : Program) → (is : IsLegal l main p)
        → words_at p is.walked.world.instances 0 p.objects
        ≡ own_words_of_units is.walked.world.instances is.walked.next.unit_words 0 l.units }
    ensures counted { (standard : Standard) (units : List LibraryUnit) (main : List ℕ) (p : Program)
        → (is : IsLegal (library_of standard units) main p) → UnitsRise units
        → library_words p is.walked.world.instances
        ≡ words_of_units is.walked.world is.walked.next.unit_words 0 units }
    ensures few { (standard : Standard) (units : List LibraryUnit) (main : List ℕ) (p : Program)
        → (is : IsLegal (library_of standard units) main p) → UnitsRise units
        → library_words p is.walked.world.instances ≤ most_words_of_library }
    ensures sized { (standard : Standard) (units : List LibraryUnit) (main : List ℕ) (p : Program)
        → (is : IsLegal (library_of standard units) main p) → UnitsRise units
        → Everywhere (λ o. (i : ℕ) → StandsIn p o.generic i → IsBounded p i o.subtype) p.objects
        → program_size p ≡ Some (library_words p is.walked.world.instances) }
{
    legal_types::instances_have_their_facts();
    legal_types::orders_of_legal_programs_are_whole();
}

/// What other units see of each unit follows from its item, in either step: of a package with formals a generic,
/// of one without a package, of an instance one, of a library subprogram itself. In a legal program each package
/// with formals is seen as a generic, and each instance as one of a package with formals.
pub fn units_are_seen_as_their_items()
    ensures walked { (step : Step) (l : Library) (main : List ℕ) (x : Walked) → IsWalked step l main x
        → AreInterfacesOf x.world.interfaces l.units }
    ensures kinds { (step : Step) (l : Library) (main : List ℕ) (x : Walked) → (judged_in step l main).answer ≡ Ok x
        → AreInterfacesOf x.world.interfaces l.units }
    ensures generics { (standard : Standard) (units : List LibraryUnit) (main : List ℕ) (p : Program)
        → (is : IsLegal (library_of standard units) main p) → (n : ℕ) (u : LibraryUnit)
        → slice_get units n ≡ Some u → is_package_body u.item ≡ false
        → is_generic_interface (interface_of is.walked.world n) n ≡ shown_in n u.item }
    ensures instances { (standard : Standard) (units : List LibraryUnit) (main : List ℕ) (p : Program)
        → (is : IsLegal (library_of standard units) main p) → (n : ℕ) (u : LibraryUnit)
        → slice_get units n ≡ Some u → is_instance u.item ≡ true
        → IsSeenAsInstance is.walked.world units n }
{
    legal_types::orders_of_legal_programs_are_whole();
}

/// Each exception of a legal program stands in the generic, or in none, in which the text of one of its units
/// stands; its objects of the library level are those whose words its units noted, each in the generic in which
/// the text of that unit stands.
pub fn declarations_stand_in_their_texts()
    ensures exceptions { (l : Library) (main : List ℕ) (p : Program) → (is : IsLegal l main p)
        → Everywhere (λ d. IsGenericOfText is.walked.world l d.generic) p.declared }
    ensures objects { (l : Library) (main : List ℕ) (p : Program) → (is : IsLegal l main p)
        → map standing p.objects ≡ reverse (noted_words is.walked.next.unit_words) }
    ensures words { (l : Library) (main : List ℕ) (p : Program) → (is : IsLegal l main p)
        → Everywhere (IsOfText is.walked.world l) is.walked.next.unit_words }
{}
