//! What programs of the source language mean: typed programs as pure trees, their executions with
//! events, output and cost, and their obligations. The definitions stand in `specs/`, by layers:
//!
//! - `Types`, `Tree`, `Program`: the typed program; `Seen`: a generic's text, from outside it;
//! - `State`: states, outcomes and actions; `Arithmetic`; `Shape`: scalar parts of objects;
//! - `Resolved`: what names are in an instance; `Statics`: the values of static expressions;
//!   `Bodies`: subprograms in the instances of their generics; `Calls`: what calls hand over;
//! - `Expressions`, `Statements`, `Execution`: what a program does;
//! - `Collected`, `Obligations`, `Objects`: obligations, and the numbers in the trees;
//! - `Declared`, `WellFormed`: what code needs of a program, and the rules of the language ensure;
//! - `Copies`: copies of generics; `Refines`, `Events`: what the laws speak of.
//!
//! The functions here do nothing: each carries a law of the definitions as its contract.
//!
//! The contract that the layers above use: [`one_ending`], so that `Ends p input x` says what a
//! program does on an input, and [`more_fuel`] beneath it.
#![tactic(auto)]

ghost use Rattle.std.specs.Prelude.{◌≡◌, ◌≤◌, ◌↔◌, ◌++◌, ℕ, ℤ, Bool, List, [], Option};
ghost use Rattle.std.specs.Option.{IfSome};
ghost use Rattle.cov_base.specs.declared.event.Event.{Event};
ghost use Rattle.cov_base.specs.Graph.{graph, leaf};
ghost use Rattle.cov_base.specs.Lists.{Everywhere, Somewhere};
ghost use Rattle.cov_base.specs.Path.{LeadsTo};
ghost use Rattle.ada_meaning.specs.Bodies.{Body, bodies_of, IsBody};
ghost use Rattle.ada_meaning.specs.Calls.{Calls};
ghost use Rattle.ada_meaning.specs.Copies.{block_copy, exec_copies};
ghost use Rattle.ada_meaning.specs.Events.{IsEventOf, IsNoted};
ghost use Rattle.ada_meaning.specs.Execution.{exec, events_at, output_at, Execution, Ends};
ghost use Rattle.ada_meaning.specs.Expressions.{test, decides, Evaluation};
ghost use Rattle.ada_meaning.specs.Declared.{object_shape};
ghost use Rattle.ada_meaning.specs.Program.{Program, Subprogram};
ghost use Rattle.ada_meaning.specs.Refines.{Refines};
ghost use Rattle.ada_meaning.specs.Resolved.{number_in, bounds_in, shape_in};
ghost use Rattle.ada_meaning.specs.Seen.{range_seen, subtype_seen};
ghost use Rattle.ada_meaning.specs.State.{World, Gives};
ghost use Rattle.ada_meaning.specs.Statements.{does_block};
ghost use Rattle.ada_meaning.specs.Statics.{static_value, static_bounds, values_of};
ghost use Rattle.ada_meaning.specs.Tree.{Block, Label, Object, Test, shape_of};
ghost use Rattle.ada_meaning.specs.Types.{Static, Range, Subtype};
ghost use Rattle.ada_meaning.specs.WellFormed.{IsSubprogram, IsType, IsWellFormed, StartSees};

/// With more fuel an execution that ended is the same, and one that was cut off goes on.
#[tactic(auto, using(crate::proofs::FuelExecution::more_fuel_law))]
pub fn more_fuel()
    ensures { (p : Program) (fuel more : ℕ) (input : List ℤ) → fuel ≤ more
        → Refines (exec p fuel input) (exec p more input) }
{}

/// An execution that ends has one ending, one output, one list of events and one cost.
pub fn one_ending()
    ensures { (p : Program) (input : List ℤ) (x y : Execution) → Ends p input x → Ends p input y → x ≡ y }
{}

/// What was observed under any fuel is the beginning of what an execution that ends shows.
pub fn a_cut_execution_is_a_beginning()
    ensures events { (p : Program) (fuel : ℕ) (input : List ℤ) (x : Execution) → Ends p input x
        → (rest : List Event) × (x.events ≡ events_at p fuel input ++ rest) }
    ensures output { (p : Program) (fuel : ℕ) (input : List ℤ) (x : Execution) → Ends p input x
        → (rest : List ℤ) × (x.output ≡ output_at p fuel input ++ rest) }
{}

/// The steps of a completed evaluation are a path of the decision's graph to the leaf of its
/// outcome. When a decision gives an outcome, the event is noted, with the vector of such a path,
/// and that is the outcome of the vector.
pub fn an_evaluation_takes_a_path()
    ensures leads { (p : Program) (calls : Calls) (inst : ℕ) (t : Test) (w v : World) (found : Evaluation)
        → test p calls inst t 0 [] w ≡ Gives found v
        → LeadsTo (graph (shape_of t)) found.steps (leaf found.outcome) }
    ensures noted { (p : Program) (calls : Calls) (inst : ℕ) (d : Label) (t : Test) (w v : World) (b : Bool)
        → decides p calls inst d t w ≡ Gives b v → IsNoted d inst t b v }
{}

/// Each event names a statement obligation of the program, or a decision of it with the vector of a
/// path of its graph.
#[tactic(auto, using(crate::proofs::EventsExecution::events_law))]
pub fn events_name_obligations()
    ensures { (p : Program) (fuel : ℕ) (input : List ℤ) → Everywhere (IsEventOf p) (events_at p fuel input) }
{}

/// The copy of a generic's text for an instance means there what the generic's text means in the
/// instance, and an execution where each call executes such a copy is the program's own, with the
/// same events, output and cost.
pub fn copies_mean_their_generic()
    ensures blocks { (p : Program) (calls : Calls) (fuel inst : ℕ) (b : Block) (taken : Option ℕ)
        → does_block p calls fuel inst (block_copy p inst b) taken ≡ does_block p calls fuel inst b taken }
    ensures executions { (p : Program) (fuel : ℕ) (input : List ℤ) → exec_copies p fuel input ≡ exec p fuel input }
{}

/// Where a static expression has a value in an instance, it is the number that executions take, and so
/// are the bounds of a subtype.
pub fn static_values_are_exact()
    ensures values { (p : Program) (inst : ℕ) (e : Static)
        → IfSome (static_value (values_of p) inst e) (λ x. number_in p inst e ≡ x) }
    ensures bounds { (p : Program) (inst : ℕ) (r : Range)
        → IfSome (static_bounds (values_of p) inst r) (λ b. bounds_in p inst r ≡ b) }
{}

/// What is seen of a generic's text through an instance is, from everywhere, what it is in that instance.
pub fn text_is_seen_through_instances()
    ensures bounds { (p : Program) (inst i : ℕ) (r : Range) → bounds_in p inst (range_seen i r) ≡ bounds_in p i r }
    ensures shapes { (p : Program) (inst i : ℕ) (t : Subtype) → shape_in p inst (subtype_seen i t) ≡ shape_in p i t }
{}

/// The bodies of a program are its subprograms, each in the instances of the generic whose text it
/// stands in, or, in no generic, in instance 0.
pub fn bodies_stand_in_their_generics()
    ensures { (p : Program) (b : Body) → Somewhere (λ c. c ≡ b) (bodies_of p) ↔ IsBody p b }
{}

/// In a well-formed program each body is a well-formed subprogram in its instance, and each object that it
/// sees where it begins has a type there, with bounds in the base range.
pub fn well_formed_bodies_see_types()
    ensures bodies { (p : Program) (b : Body) → IsWellFormed p → (is : IsBody p b) → IsSubprogram p b.instance is.declared }
    ensures objects { (p : Program) (inst : ℕ) (s : Subprogram) (o : Object) → IsWellFormed p → IsSubprogram p inst s
        → StartSees p inst s o → IsType (object_shape p inst s o) }
{}
