//! Laws of kernels. The functions here do nothing: each carries laws as its contract.

ghost use Rattle.std.specs.Prelude.{◌≡◌, ◌≢◌, ◌+◌, ◌++◌, ◌<◌, ◌≤◌, ◌⊎◌, ℕ, ℤ, List, [], ◌∷◌, length, Some, slice_get};
ghost use Rattle.cov_base.specs.declared.position.DecId.{DecId};
ghost use Rattle.cov_base.specs.Graph.{Edges};
ghost use Rattle.kernel_ir.specs.declared.kernel.Kernel.{Kernel};
ghost use Rattle.kernel_ir.specs.Examples.{Values, Operators, Checks, Words, Components, Composites, Input, Decisions, Abandoned, Loops, Handlers, CallsOf, Depth, Marks, WithinLimits};
ghost use Rattle.kernel_ir.specs.Laws.{AreNodesOf, IsPartOf, RaisesOneOf, Refines};
ghost use Rattle.kernel_ir.specs.Limits.{edges_of, CodeFits, CodeLacks, IsWellFormed, code_instructions};
ghost use Rattle.kernel_ir.specs.Meaning.{Calls, does_code, does_op, exec};
ghost use Rattle.kernel_ir.specs.Obligations.{code_rows, code_conditions};
ghost use Rattle.kernel_ir.specs.Layouts.{content_in, content_of, contents_after};
ghost use Rattle.kernel_ir.specs.Simple.{copied, filled};
ghost use Rattle.kernel_ir.specs.declared.kernel.Layout.{Layout};
ghost use Rattle.kernel_ir.specs.Sequence.{joined};
ghost use Rattle.kernel_ir.specs.Tree.{Op, Code, no_op, and_op, Nodes};
ghost use Rattle.kernel_ir.specs.World.{Memory, World, goes_on, slot_in, with_slot};

/// With more fuel an execution that ended is the same, and one that was cut off goes on.
#[tactic(auto, using(crate::proofs::Fuel::more_fuel_law))]
pub fn more_fuel()
    ensures { (p : Kernel) (fuel more : ℕ) (input : List ℤ) → fuel ≤ more
        → Refines (exec p fuel input) (exec p more input) }
{}

/// An execution of a well-formed kernel raises one of its exceptions, if it raises any.
pub fn raised_numbers_are_of_exceptions()
    ensures { (graph : DecId → List Edges) (p : Kernel) → IsWellFormed graph p
        → (fuel : ℕ) (input : List ℤ) → RaisesOneOf p.exceptions (exec p fuel input) }
{}

/// Where the nodes of a decision are its graph, each node's edges are those of that node in it.
#[tactic(auto, using(crate::proofs::Table::nodes_of_graph))]
pub fn nodes_are_of_their_graph()
    ensures { (graph : List Edges) (ns : Nodes) → edges_of 0 ns ≡ graph → AreNodesOf graph 0 ns }
{}

/// Code behind code does first what the one does, and then what the other does; a single operation
/// does what it does.
#[tactic(auto, using(crate::proofs::Joining::joined_does, crate::proofs::Joining::single_does))]
pub fn joined_code_goes_on()
    ensures single { (p : Kernel) (calls : Calls) (fuel width fp left : ℕ) (o : Op) (w : World)
        → does_code p calls fuel width fp left (and_op o no_op) w ≡ does_op p calls fuel width fp left o w }
    ensures joined { (p : Kernel) (calls : Calls) (fuel width fp left : ℕ) (a b : Code) (w : World)
        → does_code p calls fuel width fp left (joined a b) w
        ≡ goes_on (does_code p calls fuel width fp left a w) (does_code p calls fuel width fp left b) }
{}

/// Code behind code holds what both hold.
pub fn joined_code_holds_both()
    ensures fits { (p : Kernel) (slots : ℕ) (graph : DecId → List Edges) (a b : Code)
        → CodeFits p slots graph a → CodeFits p slots graph b → CodeFits p slots graph (joined a b) }
    ensures lacks { (d : DecId) (a b : Code) → CodeLacks d a → CodeLacks d b → CodeLacks d (joined a b) }
    ensures rows { (a b : Code) → code_rows (joined a b) ≡ code_rows a ++ code_rows b }
    ensures conditions { (a b : Code) → code_conditions (joined a b) ≡ code_conditions a ++ code_conditions b }
    ensures instructions { (a b : Code) → code_instructions (joined a b) ≡ code_instructions a + code_instructions b }
    ensures associative { (a b c : Code) → joined (joined a b) c ≡ joined a (joined b c) }
{}

/// A slot holds what it was set to, and the others what they held.
pub fn slots_hold_what_they_were_set_to()
    ensures set { (fp k : ℕ) (x : ℤ) (w : World) → slot_in fp k (with_slot fp k x w) ≡ x }
    ensures others { (fp k j : ℕ) (x : ℤ) (w : World) → k < fp → j < fp → j ≢ k
        → slot_in fp j (with_slot fp k x w) ≡ slot_in fp j w }
{}

/// Where a copy doesn't overlap what it reads later, it gives the words that were read; a copy and a
/// fill leave all other words.
pub fn copies_and_fills_set_their_words()
    ensures copied { (n from to k : ℕ) (m : Memory) → (to ≤ from) ⊎ (from + n ≤ to) → k < n
        → copied n from to m (to + k) ≡ m (from + k) }
    ensures not_copied { (n from to a : ℕ) (m : Memory) → (a < to) ⊎ (to + n ≤ a) → copied n from to m a ≡ m a }
    ensures filled { (xs : List ℤ) (to k : ℕ) (x : ℤ) (m : Memory) → slice_get xs k ≡ Some x
        → filled xs to m (to + k) ≡ x }
    ensures not_filled { (xs : List ℤ) (to a : ℕ) (m : Memory) → (a < to) ⊎ (to + length xs ≤ a)
        → filled xs to m a ≡ m a }
{}

/// A layout keeps its content when others come behind it, and the last one is built of those before.
pub fn layouts_keep_their_contents()
    ensures stays { (ls more : List Layout) (k : ℕ) → k < length ls → content_in (ls ++ more) k ≡ content_in ls k }
    ensures last { (ls : List Layout) (l : Layout)
        → content_in (ls ++ l ∷ []) (length ls) ≡ content_of (contents_after [] ls) l }
{}

/// Code that fits a kernel fits one with more slots, bodies, layouts, library words and exceptions.
#[tactic(auto, using(crate::proofs::Wider::code_fits_more))]
pub fn code_fits_larger_kernels()
    ensures { (p q : Kernel) → IsPartOf p q → (slots more : ℕ) → slots ≤ more
        → (graph : DecId → List Edges) (a : Code) → CodeFits p slots graph a → CodeFits q more graph a }
{}

/// Worked examples of what kernels do.
pub fn worked_examples()
    ensures values { Values }
    ensures operators { Operators }
    ensures checks { Checks }
    ensures words { Words }
    ensures components { Components }
    ensures composites { Composites }
    ensures input { Input }
    ensures decisions { Decisions }
    ensures abandoned { Abandoned }
    ensures loops { Loops }
    ensures handlers { Handlers }
    ensures calls { CallsOf }
    ensures depth { Depth }
    ensures marks { Marks }
    ensures within_limits { WithinLimits }
{}
