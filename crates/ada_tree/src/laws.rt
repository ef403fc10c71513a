//! What the view of a program keeps of it.

ghost use Rattle.std.specs.Prelude.{◌≡◌, ◌∷◌, [], ℕ, Bool, true, false, List, length, map};
ghost use Rattle.ada_meaning.specs.Tree as tree;
ghost use Rattle.ada_meaning.specs.Types as type;
ghost use Rattle.ada_tree.specs.declared.expr.Actual.TheVariants as actual;
ghost use Rattle.ada_tree.specs.declared.expr.Object.{Object};
ghost use Rattle.ada_tree.specs.declared.expr.Object.TheVariants as object;
ghost use Rattle.ada_tree.specs.declared.expr.Operand.{Operand};
ghost use Rattle.ada_tree.specs.declared.expr.ShortCircuit.TheVariants as form;
ghost use Rattle.ada_tree.specs.declared.program.Program.{Program};
ghost use Rattle.ada_tree.specs.declared.statement.Declaration.TheVariants as declaration;
ghost use Rattle.ada_tree.specs.declared.label.Label.{Label};
ghost use Rattle.ada_tree.specs.declared.statement.NewValue.{NewValue};
ghost use Rattle.ada_tree.specs.declared.statement.NewValue.TheVariants as value;
ghost use Rattle.ada_tree.specs.declared.statement.StatementKind.TheVariants as kind;
ghost use Rattle.ada_tree.specs.declared.types.Operator.TheVariants as operator;
ghost use Rattle.ada_tree.specs.declared.types.Range.{Range};
ghost use Rattle.ada_tree.specs.declared.types.ScalarRange.{ScalarRange};
ghost use Rattle.ada_tree.specs.declared.types.ScalarRange.TheVariants as range;
ghost use Rattle.ada_tree.specs.declared.program.Subprogram.{Subprogram};
ghost use Rattle.ada_tree.specs.declared.types.Subtype.TheVariants as subtype;
ghost use Rattle.ada_tree.specs.Programs.{program_of, subprogram_of, unfolded};
ghost use Rattle.ada_tree.specs.View.{actuals_of, declaration_of, label_of, neutral_of, object_of, operator_of, range_of, scalar_range_of, statement_at, statements_of, subtype_of, value_of, with_operands, with_tests};

/// A program's view has as many subprograms and the same main procedure; a statement's label and the
/// order of statements are kept.
pub fn views_keep_their_parts()
    ensures main { (p : Program) → (program_of p).main ≡ p.main }
    ensures subprograms { (p : Program) → length (program_of p).subprograms ≡ length p.subprograms }
    ensures number { (l : Label) → (label_of l).number ≡ l.number }
    ensures place { (l : Label) → (label_of l).place ≡ l.place }
    ensures returns { (l : Label) → statement_at (kind.Return l) ≡ tree.return_statement (label_of l) }
    ensures assigns { (l : Label) (o : Object) (v : NewValue)
        → statement_at (kind.Assignment l o v) ≡ tree.assignment (label_of l) (object_of o) tree.whole (value_of v) }
    ensures order { (s : tree.Stmt) (ss : List tree.Stmt) → statements_of (s ∷ ss) ≡ tree.and_statement s (statements_of ss) }
{}

/// A declaration's view has its object and its initial value, or the subtype of one without a value; a
/// subprogram's view has the subtypes of its objects.
pub fn declarations_keep_their_parts()
    ensures initialized { (l : Label) (d : ℕ) (v : NewValue)
        → declaration_of (declaration.Initialized l d v) ≡ tree.initialized (label_of l) d (value_of v) }
    ensures without_value { (d : ℕ) (r : ScalarRange)
        → declaration_of (declaration.WithoutValue d (subtype.Scalar r)) ≡ tree.without_value d (type.scalar (scalar_range_of r)) }
    ensures objects { (types : List type.Subtype) (s : Subprogram)
        → (subprogram_of types s).objects ≡ map (λ t. unfolded types (subtype_of t)) s.objects }
    ensures value { (r : ScalarRange) (e : tree.Expr) → value_of (value.Scalar r e) ≡ tree.scalar_value (scalar_range_of r) e }
    ensures range { (r : Range) → scalar_range_of (range.Known r) ≡ type.between (type.static_number r.first) (type.static_number r.last) }
{}

/// Operands are seen from the left, with their operators, and actuals in their order.
pub fn expressions_keep_their_parts()
    ensures operands { (e : tree.Expr) (o : Operand) (os : List Operand)
        → with_operands e (o ∷ os) ≡ with_operands (tree.operation (operator_of o.operator) e o.operand) os }
    ensures modulus { operator_of operator.Modulus ≡ type.modulus }
    ensures remainder { operator_of operator.Remainder ≡ type.remainder }
    ensures object { (d : ℕ) → object_of (object.Local d) ≡ tree.local_object d }
    ensures expression { (e : tree.Expr) → actuals_of (actual.Expression e ∷ []) ≡ tree.by_expression e tree.no_actual }
    ensures variable { (o : Object) (r : ScalarRange)
        → actuals_of (actual.Variable o r ∷ []) ≡ tree.by_variable (object_of o) tree.whole (scalar_range_of r) tree.no_actual }
{}

/// `and then` goes on where its left operand is True, `or else` where it is False; operands group to the
/// left (RM 4.5, 4.5.1).
pub fn forms_keep_their_parts()
    ensures and_then { neutral_of form.AndThen ≡ true }
    ensures or_else { neutral_of form.OrElse ≡ false }
    ensures operands { (neutral : Bool) (t u : tree.Test) (us : List tree.Test)
        → with_tests neutral t (u ∷ us) ≡ with_tests neutral (tree.operator neutral t u) us }
{}
