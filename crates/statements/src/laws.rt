//! Laws of statements with others in them, for the layers above. The function does nothing: it carries
//! laws as its contract.

ghost use Rattle.std.specs.Prelude.{◌≡◌, List, ◌∷◌};
ghost use Rattle.cov_base.specs.declared.position.Pos.{Pos};
ghost use Rattle.ada_syntax.specs.StatementTree as text;
ghost use Rattle.ada_syntax.specs.StatementView.{statements_of, branches_of, alternatives_of, handlers_of};
ghost use Rattle.ada_syntax.specs.declared.declaration.DiscreteRange.{DiscreteRange};
ghost use Rattle.ada_syntax.specs.declared.name.Identifier.{Identifier};
ghost use Rattle.ada_syntax.specs.declared.statement.Alternative.{Alternative};
ghost use Rattle.ada_syntax.specs.declared.statement.Branch.{Branch};
ghost use Rattle.ada_syntax.specs.declared.statement.Direction.{Direction};
ghost use Rattle.ada_syntax.specs.declared.statement.Handler.{Handler};
ghost use Rattle.ada_syntax.specs.declared.statement.LoopScheme.TheVariants as scheme;
ghost use Rattle.ada_rules.specs.Environment.{Env, State};
ghost use Rattle.ada_rules.specs.Statements.{Selector, all_arms, all_handlers, branched, stated};
ghost use Rattle.statements.specs.Nested.{in_branches, in_turns, from_branch, from_arm, from_handler};

/// Statements with others in them come to what their parts come to, one part after the other: the branches of
/// an if statement, of which the first is one like the others (RM 5.3), alternatives (RM 5.4), the beginning of
/// a for loop and its statements (RM 5.5), and handlers (RM 11.2).
pub fn statements_have_parts()
    ensures conditionals { (env : Env) (s : State) (p : Pos) (b : Branch) (bs : List Branch) (es : text.Statements)
        → (stated env s (text.conditional p b.condition (statements_of b.statements.items) (branches_of bs) es)).answer
        ≡ in_branches env s p b bs es }
    ensures branches { (env : Env) (s : State) (p : Pos) (b : Branch) (bs : List Branch)
        → (branched env s p (branches_of (b ∷ bs))).answer ≡ from_branch env s p b bs }
    ensures alternatives { (env : Env) (s : State) (x : Selector) (p : Pos) (a : Alternative) (rest : List Alternative)
        → (all_arms env s x p (alternatives_of (a ∷ rest))).answer ≡ from_arm env s x p a rest }
    ensures loops { (env : Env) (s : State) (p : Pos) (i : Identifier) (d : Direction) (r : DiscreteRange)
        (ss : text.Statements)
        → (stated env s (text.repeat p (scheme.For i d r) ss)).answer ≡ in_turns env s p i d r ss }
    ensures handlers { (env : Env) (s : State) (p : Pos) (h : Handler) (hs : List Handler)
        → (all_handlers env s p (handlers_of (h ∷ hs))).answer ≡ from_handler env s p h hs }
{}
