//! Legal programs are well-formed: whole programs. Laws over the definitions of `ada_rules` and
//! `ada_meaning` alone, on those of `legal_laws` on constructs:
//!
//! - the walk only adds to its state (`Growing`), and what the final program serves at its end it
//!   serves all along (`Final`);
//! - obligations, objects and exceptions are numbered in turn (`Labelled`, `Deciding`, `Made`);
//! - the main procedure is there (`Main`);
//! - a legal program is well-formed, where its obligations stand in the order of the text, and where
//!   what stands in instances is well-formed there (`InText`).
//!
//! The functions here do nothing: each carries a law of the definitions as its contract.
#![tactic(auto)]

ghost use Rattle.std.specs.Prelude.{Some, slice_get, codes, IfOk, List, None, Option, [], false, length, map, ℕ, ◌≡◌};
ghost use Rattle.cov_base.specs.Lists.{Everywhere};
ghost use Rattle.cov_base.specs.declared.position.Pos.{Pos};
ghost use Rattle.ada_syntax.specs.StatementTree.{Statements};
ghost use Rattle.ada_syntax.specs.Tree.{Expr};
ghost use Rattle.ada_syntax.specs.declared.unit.BodyItem.{BodyItem};
ghost use Rattle.ada_syntax.specs.declared.unit.Specification.{Specification};
ghost use Rattle.ada_syntax.specs.declared.unit.Unit.{Unit as LibraryUnit};
ghost use Rattle.ada_syntax.specs.declared.unit.SubprogramBody.{SubprogramBody};
ghost use Rattle.ada_meaning.specs.Bodies.{StandsIn};
ghost use Rattle.ada_meaning.specs.Collected.{all_labels, decisions_of, in_stmts, labels_of};
ghost use Rattle.ada_meaning.specs.Objects.{IsDeclaredOnce};
ghost use Rattle.ada_meaning.specs.Obligations.{numbers, IsResolved};
ghost use Rattle.ada_meaning.specs.Program.{Program};
ghost use Rattle.ada_meaning.specs.WellFormed.{IsWellFormed};
ghost use Rattle.ada_rules.specs.Types.{AdaType};
ghost use Rattle.ada_meaning.specs.Shape.{Shape};
ghost use Rattle.ada_meaning.specs.Tree.{Object};
ghost use Rattle.legal_laws.specs.Known.{IsEntity, IsOneOf};
ghost use Rattle.legal_programs.specs.Closed.{IsClosedEntity, IsClosedObject, IsOfLibrary};
ghost use Rattle.ada_rules.specs.Entities.{entity_of, Actual, Entity, Region, seen, whole_standard};
ghost use Rattle.ada_rules.specs.Environment.{Env, State, Step, World, typing};
ghost use Rattle.ada_rules.specs.Expressions.{Role, is_circuit, judged};
ghost use Rattle.ada_rules.specs.Legal.{checked_in, checked_with, legal};
ghost use Rattle.ada_rules.specs.Library.{Library, is_instance, all_bodies, body_names};
ghost use Rattle.ada_rules.specs.Statements.{all_stated, stmts_of};
ghost use Rattle.ada_rules.specs.Subprograms.{Profile, body_judged, specified};
ghost use Rattle.ada_rules.specs.Units.{Walked, all_bodies_judged, all_interfaces, body_items};
ghost use Rattle.legal_laws.specs.Served.{HaveOwnValues};
ghost use Rattle.legal_programs.specs.Deciding.{Decides, IsNarrow, IsWhole, IsWholeEnv, JudgesFrom};
ghost use Rattle.legal_programs.specs.Final.{IsServed};
ghost use Rattle.legal_programs.specs.Growing.{Adds, AddsBodies, AddsInterfaces, Extends};
ghost use Rattle.legal_programs.specs.Homes.{AreNamedApart, HasHome, instances_at};
ghost use Rattle.legal_programs.specs.InText.{IsFormedInInstances, IsInTextOrder, Rise};
ghost use Rattle.legal_programs.specs.Labelled.{Labels};
ghost use Rattle.legal_programs.specs.Looked.{IsLookedAt};
ghost use Rattle.legal_programs.specs.Made.{AreMadeInTurn, Makes};
ghost use Rattle.legal_programs.specs.Main.{HasMain};
ghost use Rattle.ada_rules.specs.Declarations.{declared};
ghost use Rattle.ada_syntax.specs.declared.declaration.Declaration.{Declaration};
ghost use Rattle.legal_programs.specs.Worked.{worked_program, worked_units};
ghost use Rattle.legal_laws.specs.Valued.{AreFactsOf, AreFactsInBase};
ghost use Rattle.legal_programs.specs.DecisionPlaces.{units_decisions};
ghost use Rattle.legal_programs.specs.TextPlaces.{all_places, units_places};
ghost use Rattle.legal_programs.specs.Walked.{IsLegal};
ghost use Rattle.legal_programs.specs.WholeWorld.{IsWholeStandard};

/// Statements, with the declarations and the expressions in them, only add to the state, in both steps:
/// what was demanded, declared and raised before stays, and objects of the library level and exceptions
/// are numbered in turn.
pub fn statements_only_add()
    ensures { (env : Env) (s : State) (q : Pos) (ss : Statements)
        → IfOk (all_stated env s q ss).answer (λ g. Adds s g.next) }
{}

/// The bodies of a package add a subprogram each, in both steps.
pub fn bodies_add_subprograms()
    ensures { (name : List ℕ) (env : Env) (s : State) (p : Pos) (is : List BodyItem)
        → IfOk (body_items env s p is).answer (λ g. AddsBodies (length (body_names name is)) s g.next) }
{}

/// What other units see of units adds no subprogram, and an instance for each unit that is one; the bodies of
/// all units add a subprogram each, in both steps, where each body of a package has its package.
pub fn units_only_add()
    ensures interfaces { (step : Step) (l : Library) (x : Walked) (ns : List ℕ)
        → IfOk (all_interfaces step l x ns).answer (λ y. AddsInterfaces (instances_at l ns) x.next y.next) }
    ensures bodies { (step : Step) (l : Library) (w : World) (s : State) (n : ℕ) (us : List LibraryUnit)
        → Everywhere (λ u. HasHome l u.item) us
        → IfOk (all_bodies_judged step l w s n us).answer (AddsBodies (length (all_bodies us)) s) }
{}

/// A legal program is what its walk in the step of types made: the walk passes, with a main unit, each
/// demand on static values is met, and no limit is passed.
pub fn legal_programs_pass_each_step()
    ensures { (l : Library) (main : List ℕ) (p : Program) → checked_in l main ≡ legal p → IsLegal l main p }
{}

/// A legal program serves each state of its walk, in each instance in which the text of a generic, or of
/// none, is looked at, where the constants of the generic have the values of their expressions there.
pub fn legal_programs_serve_each_state()
    ensures { (l : Library) (main : List ℕ) (p : Program) → (is : IsLegal l main p) → (o : Option ℕ) (inst : ℕ)
        → IsLookedAt is.walked.world.instances is.walked.next.demands o inst → StandsIn p o inst
        → HaveOwnValues is.walked.world.instances inst o is.walked.next.constants_declared
        → (s : State) → Extends s is.walked.next → IsServed is.walked.world.instances p o inst s }
{}

/// So does it once over text that stands in no generic.
pub fn text_in_no_generic_is_served_once()
    ensures { (l : Library) (main : List ℕ) (p : Program) → (is : IsLegal l main p)
        → (s : State) → Extends s is.walked.next → IsServed is.walked.world.instances p None 0 s }
{}

/// A legal program without instances has nothing to resolve, and there are no facts of instances.
pub fn programs_without_instances_are_resolved()
    ensures { (l : Library) (main : List ℕ) (p : Program) → (is : IsLegal l main p)
        → Everywhere (λ u. is_instance u.item ≡ false) l.units
        → (p.instances ≡ []) × (IsResolved p × AreFactsOf p is.walked.world.instances) }
{}

/// What instances have for formals and constants lies in the base range, behind what units see of each
/// other and at the end of the walk.
pub fn facts_lie_in_the_base_range()
    ensures seen { (l : Library) (main : List ℕ) (p : Program) → (is : IsLegal l main p)
        → Everywhere AreFactsInBase is.walk.seen.world.instances }
    ensures behind { (l : Library) (main : List ℕ) (p : Program) → (is : IsLegal l main p)
        → Everywhere AreFactsInBase is.walked.world.instances }
{}

/// Statement obligations are numbered in the order in which they stand in the typed program, which is
/// that of the walk.
pub fn statements_are_numbered()
    ensures { (env : Env) (s : State) (q : Pos) (ss : Statements) → env.step ≡ typing
        → IfOk (all_stated env s q ss).answer (λ g. Labels s (all_labels (stmts_of g.value)) g.next) }
{}

/// They stand where the statements stand in the text, and the declarations with an initial value.
pub fn statements_stand_in_the_text()
    ensures { (env : Env) (s : State) (q : Pos) (ss : Statements) → env.step ≡ typing
        → IfOk (all_stated env s q ss).answer (λ g.
        map (λ l. l.place) (all_labels (stmts_of g.value)) ≡ all_places ss) }
{}

/// The statement obligations of a legal program stand where the statements of its units stand, in the order
/// of the text.
pub fn obligations_stand_in_the_text()
    ensures { (l : Library) (main : List ℕ) (p : Program) → IsLegal l main p
        → map (λ x. x.place) (labels_of p.subprograms) ≡ units_places l.units }
{}

/// The decisions of a legal program stand where the conditions of its units stand, one behind the other in
/// the order of the units: so where the statements and the conditions of the text rise, its obligations stand
/// in the order of the text.
pub fn decisions_stand_in_the_text()
    ensures places { (l : Library) (main : List ℕ) (p : Program) → IsLegal l main p → IsWholeStandard l.standard
        → map (λ h. h.label.place) (decisions_of p.subprograms) ≡ units_decisions l.units }
    ensures order { (l : Library) (main : List ℕ) (p : Program) → IsLegal l main p → IsWholeStandard l.standard
        → Rise (units_places l.units) → Rise (units_decisions l.units) → IsInTextOrder l.units p }
{}

/// A body makes one subprogram, with the parameters of its specification: its statement obligations are
/// numbered in turn, its objects have numbers of their own, and that of a procedure is no function.
pub fn a_body_makes_a_subprogram()
    ensures { (env : Env) (before : State) (b : SubprogramBody) (region : Region) (name : List ℕ) (x : Specification)
        → env.step ≡ typing → IfOk (specified env before x).answer (λ q.
        IfOk (body_judged env before b region name q).answer (Makes env.generic q.value before)) }
{}

/// Units make their subprograms in turn.
pub fn units_make_subprograms_in_turn()
    ensures { (l : Library) (w : World) (s : State) (n : ℕ) (us : List LibraryUnit)
        → IfOk (all_bodies_judged typing l w s n us).answer (λ t. AreMadeInTurn s → AreMadeInTurn t) }
{}

/// A legal program has a subprogram for each body of its units, and the subprogram that a body made stands
/// at the number of those that were made before it.
pub fn subprograms_stand_at_their_numbers()
    ensures count { (l : Library) (main : List ℕ) (p : Program) → IsLegal l main p
        → length p.subprograms ≡ length (all_bodies l.units) }
    ensures places { (l : Library) (main : List ℕ) (p : Program) → (is : IsLegal l main p)
        → (generic : Option ℕ) (q : Profile) (before t : State) (h : Makes generic q before t)
        → Extends t is.walked.next
        → slice_get p.subprograms (length before.subprograms) ≡ Some h.made }
{}

/// What a name denotes in a region it denotes behind each declaration, which declares other names.
pub fn declarations_keep_names()
    ensures { (name : List ℕ) (x : Entity) (env : Env) (s : State) (d : Declaration)
        → entity_of name env.local ≡ Some x → IfOk (declared env s d).answer (λ y. entity_of name y.region ≡ Some x) }
{}

/// The bodies of a package have names of their own.
pub fn bodies_of_packages_are_named_apart()
    ensures { (name : List ℕ) (env : Env) (s : State) (p : Pos) (is : List BodyItem)
        → IfOk (body_items env s p is).answer (λ g. AreNamedApart (body_names name is)) }
{}

/// Names and expressions number their decisions in the order in which they stand in the typed program,
/// where regions declare whole objects. None has too many conditions, where no limit was passed.
pub fn decisions_of_expressions_are_numbered()
    ensures { (env : Env) (r : Role) (s : State) (e : Expr) → env.step ≡ typing → IsWholeEnv env
        → IfOk (judged env r s e).answer (JudgesFrom r (is_circuit e) s) }
{}

/// So do statements.
pub fn decisions_of_statements_are_numbered()
    ensures { (env : Env) (s : State) (q : Pos) (ss : Statements) → env.step ≡ typing → IsWholeEnv env
        → IfOk (all_stated env s q ss).answer (λ g. Decides s (in_stmts (stmts_of g.value)) g.next) }
{}

/// The statement obligations and the decisions of a legal program are numbered from 0 in the order in
/// which they stand in it, and no decision has too many conditions.
pub fn obligations_are_numbered()
    ensures labels { (l : Library) (main : List ℕ) (p : Program) → IsLegal l main p
        → map (λ x. x.number) (labels_of p.subprograms) ≡ numbers 0 (length (labels_of p.subprograms)) }
    ensures decisions { (l : Library) (main : List ℕ) (p : Program) → IsLegal l main p → IsWholeStandard l.standard
        → map (λ h. h.label.number) (decisions_of p.subprograms) ≡ numbers 0 (length (decisions_of p.subprograms)) }
    ensures narrow { (l : Library) (main : List ℕ) (p : Program) → IsLegal l main p → IsWholeStandard l.standard
        → Everywhere IsNarrow (decisions_of p.subprograms) }
{}

/// The objects of each subprogram of a legal program have numbers of their own; so have its objects of the
/// library level and its exceptions.
pub fn legal_programs_declare_once()
    ensures { (l : Library) (main : List ℕ) (p : Program) → IsLegal l main p → IsDeclaredOnce p }
{}

/// The main procedure of a legal program is there, at the place of its body among all: it has no
/// parameters, and stands in no generic.
pub fn main_procedures_are_there()
    ensures { (l : Library) (main : List ℕ) (p : Program) → IsLegal l main p → HasMain p }
{}

/// What is known of text in no generic in one instance is known in every one, if the same objects are
/// visible there; and what is seen through an instance hangs on no other.
pub fn closed_entities_are_known_anywhere()
    ensures anywhere { (p : Program) (i j : ℕ) (types : List AdaType) (shape_there shape_of : Object → Shape)
        (there sees : List Object) → ((o : Object) → IsClosedObject o → IsOneOf there o → IsOneOf sees o)
        → ((o : Object) → IsClosedObject o → IsOneOf there o → shape_there o ≡ shape_of o)
        → (x : Entity) → IsWhole x → IsClosedEntity x → IsEntity p i (IsOneOf types) shape_there (IsOneOf there) x
        → IsEntity p j (IsOneOf types) shape_of (IsOneOf sees) x }
    ensures through { (k : ℕ) (actuals : List Actual) (x : Entity) → IsOfLibrary x → IsClosedEntity (seen k actuals x) }
{}

/// A program that the rules of the whole language accept is well-formed, where the statements of its units
/// stand in the order of the text, and so do its decisions, and where its instances have their values, and
/// its objects of the library level and its bodies are well-formed in each instance.
pub fn legal_programs_are_well_formed_but_for_instances()
    ensures { (units : List LibraryUnit) (main : List ℕ) (p : Program)
        → checked_with whole_standard units main ≡ legal p → IsInTextOrder units p → IsFormedInInstances p
        → IsWellFormed p }
{}

/// A worked program meets these premises.
pub fn a_worked_program_meets_the_premises()
    ensures is_legal { checked_with whole_standard worked_units (codes "main") ≡ legal worked_program }
    ensures in_text { IsInTextOrder worked_units worked_program }
    ensures formed { IsFormedInInstances worked_program }
{}
