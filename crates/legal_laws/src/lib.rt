//! Legal programs are well-formed: what the rules of the language accept is what code can be made
//! for. Laws over the definitions of `ada_rules` and `ada_meaning` alone, by layers:
//!
//! - static values: a demand that is met holds in each instance in which it is asked, and its static
//!   expressions have values in the typed program (`Demanded`, `Valued`);
//! - names and expressions: where all that may be named is known in an instance, what they come to
//!   is well-formed there (`Known`), and they change nothing but the numbers of decisions (`Kept`);
//! - declarations, statements and bodies: where they stand so (`Standing`), in text that the grammar
//!   allows (`Written`), they are well-formed, if the final program keeps what the walk found
//!   (`Served`).
//!
//! The functions here do nothing: each carries a law of the definitions as its contract.
#![tactic(auto)]

ghost use Rattle.std.specs.Prelude.{◌≡◌, ◌≤◌, ℕ, Bool, false, true, List, None, Some, IfOk};
ghost use Rattle.std.specs.Prelude.{length, reverse, slice_get, unwrap_or};
ghost use Rattle.cov_base.specs.declared.position.Pos.{Pos};
ghost use Rattle.ada_syntax.specs.StatementTree.{Statements};
ghost use Rattle.ada_syntax.specs.Tree.{Expr, Name};
ghost use Rattle.ada_syntax.specs.declared.declaration.Declaration.{Declaration};
ghost use Rattle.ada_syntax.specs.declared.unit.SubprogramBody.{SubprogramBody};
ghost use Rattle.ada_meaning.specs.Bodies.{StandsIn};
ghost use Rattle.ada_meaning.specs.Declared.{object_shape};
ghost use Rattle.ada_meaning.specs.Program.{Program, Subprogram};
ghost use Rattle.ada_meaning.specs.Shape.{Shape};
ghost use Rattle.ada_meaning.specs.Statics.{static_bounds, static_value, values_of};
ghost use Rattle.ada_meaning.specs.Tree.{Object};
ghost use Rattle.ada_meaning.specs.Types.{between, Static};
ghost use Rattle.ada_meaning.specs.WellFormed.{most_parameters, AreDeclarations, AreStatements, HasNumber, StartSees};
ghost use Rattle.ada_rules.specs.Declarations.{all_declared, declared};
ghost use Rattle.ada_rules.specs.Entities.{key};
ghost use Rattle.ada_rules.specs.Environment.{opened, owner_of, Env, State};
ghost use Rattle.ada_rules.specs.Expressions.{Role, denoted, judged};
ghost use Rattle.ada_rules.specs.Statements.{all_stated, stmts_of};
ghost use Rattle.ada_rules.specs.Statics.{Asked, Facts, Owed, first_unmet, holds, in_order, lies_in, value_in};
ghost use Rattle.ada_rules.specs.Subprograms.{body_number, packaged_body};
ghost use Rattle.ada_rules.specs.Types.{AdaSubtype, AdaType, subtype_in_tree};
ghost use Rattle.ada_rules.specs.Units.{at_unit, subprogram_body};
ghost use Rattle.legal_laws.specs.Demanded.{AreMet};
ghost use Rattle.legal_laws.specs.Kept.{OnlyDecides};
ghost use Rattle.legal_laws.specs.Bounded.{IsBounded};
ghost use Rattle.legal_laws.specs.Known.{AreApart, IsDenoted, IsEnv, IsJudged, IsKnownSubtype, IsOneOf};
ghost use Rattle.legal_laws.specs.LibraryLevel.{AreFormed, AreObjects};
ghost use Rattle.legal_laws.specs.Served.{IsFinal, IsFormedBy};
ghost use Rattle.legal_laws.specs.Standing.{ReturnsAs, Stands};
ghost use Rattle.legal_laws.specs.Valued.{AreFactsOf, AreOrdered, HaveFacts};
ghost use Rattle.legal_laws.specs.Written.{AreStatementTexts, AreWritten, IsBodyText, IsWritten};

/// Where no demand is unmet, each holds in each instance in which it is asked, whether the demand or
/// the instance came first. The walk has what it found latest first.
#[tactic(auto, using(crate::proofs::Demands::are_met_behind))]
pub fn demands_are_met()
    ensures { (facts : List Facts) (found : List Asked) → first_unmet facts (reverse found) ≡ None
        → AreMet facts found }
{}

/// Static expressions have the values in the typed program that the rules asked for.
pub fn static_values_are_those_of_the_rules()
    ensures { (p : Program) (facts : List Facts) → HaveFacts p.instances facts → (inst : ℕ) (e : Static)
        → static_value (values_of p) inst e ≡ value_in facts inst e }
{}

/// Where a demand is met, its static expressions have values in the typed program: a value is there, and
/// bounds are in their order.
pub fn demands_give_values()
    ensures values { (p : Program) (facts : List Facts) → AreFactsOf p facts → (inst : ℕ) (o : Owed)
        → holds facts inst (lies_in o) ≡ true → HasNumber (static_value (values_of p) inst o.value) }
    ensures bounds { (p : Program) (facts : List Facts) → AreFactsOf p facts → (inst : ℕ) (low high : Static)
        → holds facts inst (in_order low high) ≡ true
        → AreOrdered (static_bounds (values_of p) inst (between low high)) }
{}

/// Where all that may be named is known in an instance, names and expressions of the step of types are
/// well-formed there.
#[tactic(auto, using(crate::proofs::KnownExpressions::denoted_known, crate::proofs::KnownExpressions::judged_known))]
pub fn names_and_expressions_are_well_formed()
    ensures names { (p : Program) (inst : ℕ) (types : List AdaType) (shape_of : Object → Shape) (seen : List Object)
        (env : Env) → AreApart p (IsOneOf types) → IsEnv p inst (IsOneOf types) shape_of (IsOneOf seen) env
        → (s : State) (n : Name)
        → IfOk (denoted env s n).answer (λ g. IsDenoted p inst (IsOneOf types) shape_of (IsOneOf seen) g.value) }
    ensures expressions { (p : Program) (inst : ℕ) (types : List AdaType) (shape_of : Object → Shape)
        (seen : List Object) (env : Env) → AreApart p (IsOneOf types)
        → IsEnv p inst (IsOneOf types) shape_of (IsOneOf seen) env → (r : Role) (s : State) (e : Expr)
        → IfOk (judged env r s e).answer (λ g. IsJudged p inst (IsOneOf types) shape_of (IsOneOf seen) g.value) }
{}

/// Names and expressions change the number of decisions, and the places where a limit is passed, alone.
#[tactic(auto, using(crate::proofs::KeptExpressions::judged_behind))]
pub fn expressions_only_decide()
    ensures { (env : Env) (r : Role) (s : State) (e : Expr)
        → IfOk (judged env r s e).answer (λ g. OnlyDecides s g.next) }
{}

/// Declarations of a subprogram or a block are well-formed where all that they may name is known, if the
/// final program keeps the state behind them.
#[tactic(auto, using(crate::proofs::Laws::declarations_law))]
pub fn declarations_are_well_formed()
    ensures { (p : Program) (facts : List Facts) → AreFactsOf p facts → (inst : ℕ) (shape_of : Object → Shape)
        (types : List AdaType) (seen : List Object) (env : Env) (s : State) (q : Pos) (ds : List Declaration)
        → Stands p inst shape_of (IsOneOf types) (IsOneOf seen) env s → env.is_library ≡ false → AreWritten ds
        → IfOk (all_declared env s q ds).answer (λ x. IsFinal facts inst p shape_of env.generic x.next
        → AreDeclarations p inst shape_of (IsOneOf seen) x.made) }
{}

/// Objects that a declaration of the library level declares have types and initial values, if the final
/// program keeps the state behind it, and subprograms see them as they are declared.
pub fn library_declarations_are_well_formed()
    ensures { (p : Program) (facts : List Facts) → AreFactsOf p facts → (inst : ℕ) (shape_of : Object → Shape)
        (types : List AdaType) (seen : List Object) (env : Env) (s : State) (d : Declaration)
        → Stands p inst shape_of (IsOneOf types) (IsOneOf seen) env s → env.is_library ≡ true → IsWritten d.kind
        → IfOk (declared env s d).answer (λ x. IsFinal facts inst p shape_of env.generic x.next
        → AreObjects p inst env.generic shape_of (IsOneOf seen) (owner_of env) x.next.objects_declared
        → AreFormed p inst env.generic s.objects_declared → AreFormed p inst env.generic x.next.objects_declared) }
{}

/// Statements are well-formed so, in a function or in a procedure.
#[tactic(auto, using(crate::proofs::Laws::statements_law))]
pub fn statements_are_well_formed()
    ensures { (p : Program) (facts : List Facts) → AreFactsOf p facts → (inst : ℕ) (shape_of : Object → Shape)
        (function : Bool) (types : List AdaType) (seen : List Object) (env : Env) (s : State) (q : Pos)
        (ss : Statements) → Stands p inst shape_of (IsOneOf types) (IsOneOf seen) env s
        → ReturnsAs p inst (IsOneOf types) function env.returning → AreStatementTexts ss
        → IfOk (all_stated env s q ss).answer (λ g. IsFinal facts inst p shape_of env.generic g.next
        → AreStatements p inst shape_of function (IsOneOf seen) env.is_looping env.is_handling (stmts_of g.value)) }
{}

/// The subprogram that a body is typed as is well-formed in an instance where all that it may name is
/// known: in a package, where it is the one of the program with its number, and in the library.
#[tactic(auto, using(crate::proofs::Laws::packaged_law, crate::proofs::Laws::library_law))]
pub fn bodies_are_well_formed()
    ensures packages { (p : Program) (facts : List Facts) → AreFactsOf p facts → (inst : ℕ) (sub : Subprogram)
        (types : List AdaType) (env : Env) (s : State) (b : SubprogramBody) (n : ℕ)
        → Stands p inst (object_shape p inst sub) (IsOneOf types) (StartSees p inst sub) (opened env) s
        → IsBodyText b → length sub.parameters ≤ most_parameters
        → slice_get p.subprograms n ≡ Some sub → StandsIn p sub.generic inst
        → unwrap_or (body_number env.world env.unit_name (key b.specification.name)) 0 ≡ n
        → IfOk (packaged_body env s b).answer (λ g. IsFormedBy facts inst p sub env.generic g.next) }
    ensures library { (p : Program) (facts : List Facts) → AreFactsOf p facts → (inst : ℕ) (sub : Subprogram)
        (types : List AdaType) (env : Env) (s : State) (b : SubprogramBody)
        → Stands p inst (object_shape p inst sub) (IsOneOf types) (StartSees p inst sub) (opened env) (at_unit s)
        → IsBodyText b → length sub.parameters ≤ most_parameters
        → IfOk (subprogram_body env s b).answer (IsFormedBy facts inst p sub env.generic) }
{}

/// A subtype that is known in an instance has bounds there, in each of its parts.
pub fn known_types_are_bounded()
    ensures { (p : Program) (inst : ℕ) (types : List AdaType) (t : AdaSubtype)
        → IsKnownSubtype p inst (IsOneOf types) t → IsBounded p inst (subtype_in_tree t) }
{}
