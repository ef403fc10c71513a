//! Laws of the code of programs. The functions here do nothing: each carries laws as its contract.

ghost use Rattle.std.specs.Prelude.{◌≡◌, ◌≢◌, ◌+◌, ◌*◌, ◌≤◌, ℕ, ℤ, List, Some};
ghost use Rattle.std.specs.Prelude.{false, length, map, sum_by, slice_get};
ghost use Rattle.ada_meaning.specs.Bodies.{Body, bodies_of, IsBody};
ghost use Rattle.ada_meaning.specs.Collected.{labels_of, decisions_of};
ghost use Rattle.ada_meaning.specs.Execution as source;
ghost use Rattle.ada_meaning.specs.Execution.{Execution, Ends};
ghost use Rattle.ada_meaning.specs.Objects.{AreDistinct};
ghost use Rattle.ada_meaning.specs.Obligations.{IsNumbered};
ghost use Rattle.ada_meaning.specs.Program.{Program};
ghost use Rattle.ada_meaning.specs.WellFormed.{IsWellFormed as IsWellFormedProgram};
ghost use Rattle.ada_meaning.specs.Tree.{shape_of, conditions_of as conditions_at};
ghost use Rattle.cov_base.specs.declared.position.DecId.{DecId};
ghost use Rattle.cov_base.specs.Graph.{Edges};
ghost use Rattle.cov_base.specs.Graph as logic;
ghost use Rattle.cov_base.specs.Lists.{Everywhere};
ghost use Rattle.kernel_ir.specs.declared.kernel.Kernel.{Kernel};
ghost use Rattle.kernel_ir.specs.declared.kernel.Layout.{Layout};
ghost use Rattle.kernel_ir.specs.Laws.{RaisesOneOf};
ghost use Rattle.kernel_ir.specs.Limits.{IsWellFormed, IsWithin, kernel_instructions};
ghost use Rattle.kernel_ir.specs.Meaning as code;
ghost use Rattle.kernel_ir.specs.Obligations.{Condition, rows, conditions};
ghost use Rattle.statement_code.specs.AllFuels.{Follows, EndsInTime};
ghost use Rattle.statement_code.specs.Cells.{Agree};
ghost use Rattle.statement_code.specs.Copies.{layouts_nodes, AreCovered};
ghost use Rattle.statement_code.specs.Fragments.{CodeLeaves, row_in, conditions_in};
ghost use Rattle.statement_code.specs.Kernels.{Scheme, IsKernelBy, IsWhole};
ghost use Rattle.statement_code.specs.Kernels.{AreOutside, nodes_at, place_of, rows_of, conditions_of, expanded_nodes};
ghost use Rattle.statement_code.specs.Laid.{AreStacked, IsLaidKernel};
ghost use Rattle.statement_code.specs.Initial.{AreAddressed, HasInitialWords, IsObjectOf};
ghost use Rattle.statement_code.specs.Objects.{Standing, CellsOf};
ghost use Rattle.statement_code.specs.Own.{MarksOnce};
ghost use Rattle.statement_code.specs.Programs.{Plan, AreLaid, IsLibrary, Same};
ghost use Rattle.statement_code.specs.Sizes.{subprogram_nodes};

/// Under each fuel but 512, which is the greatest depth of calls, a program and a kernel that is made
/// of it by a scheme end alike or are both cut off, with the same events and output, at no more than ten
/// times the cost.
#[tactic(auto, using(crate::proofs::AllFuels::kernel_law))]
pub fn kernels_do_what_their_programs_do()
    ensures { (p : Program) (K : Kernel) (s : Scheme) → IsKernelBy p K s → (fuel : ℕ) (input : List ℤ) → fuel ≢ 512
        → Same (source.exec p fuel input) (code.exec K fuel input) }
{}

/// On every input such a kernel ends exactly where the program's execution does, with the same ending,
/// output and events, at no more than ten times the cost. Under each fuel its events and its output begin
/// those of the program under some fuel.
#[tactic(auto, using(crate::proofs::AllFuels::follows_law))]
pub fn kernels_end_where_their_programs_end()
    ensures { (p : Program) (K : Kernel) (s : Scheme) → IsKernelBy p K s → (input : List ℤ) → Follows p K input }
{}

/// Each body of a program has a place in the list of its bodies, and stands nowhere else. Where nothing
/// stands in a generic, the rows, conditions and nodes of all bodies are those of the subprograms, each
/// once, in instance 0. The nodes of all bodies are no more than their subprograms' weights, if these are
/// no less than the nodes of each.
pub fn bodies_are_listed_once()
    ensures found { (p : Program) (j m : ℕ) → IsBody p (record { instance = j; subprogram = m })
        → slice_get (bodies_of p) (place_of j m (bodies_of p)) ≡ Some (record { instance = j; subprogram = m }) }
    ensures only { (p : Program) (n : ℕ) (b : Body) → slice_get (bodies_of p) n ≡ Some b
        → place_of b.instance b.subprogram (bodies_of p) ≡ n }
    ensures rows { (p : Program) → AreOutside p.subprograms
        → rows_of p (bodies_of p) ≡ map (row_in 0) (labels_of p.subprograms) }
    ensures conditions { (p : Program) → AreOutside p.subprograms
        → conditions_of p (bodies_of p) ≡ conditions_in 0 (decisions_of p.subprograms) }
    ensures nodes { (p : Program) → AreOutside p.subprograms
        → expanded_nodes p ≡ sum_by subprogram_nodes p.subprograms }
    ensures weights { (p : Program) (weight : ℕ → ℕ) → ((m : ℕ) → nodes_at p.subprograms m ≤ weight m)
        → expanded_nodes p ≤ sum_by (λ b. weight b.subprogram) (bodies_of p) }
{}

/// The kernel of a well-formed program is whole where its bodies are those of the program, each laid out in
/// its frame, and the library level stands below all frames. Objects that stand behind one another are laid
/// out.
pub fn laid_kernels_are_whole()
    ensures whole { (p : Program) (K : Kernel) (s : Scheme) → IsWellFormedProgram p → IsLaidKernel p K s
        → IsWhole p K s }
    ensures stacked { (plan : Plan) (objects : List ℕ) (from : ℕ) → AreStacked plan from objects
        → AreDistinct objects → AreLaid plan objects }
{}

/// At the library level a kernel begins as its well-formed program does, where just the program's objects
/// stand there, each at its address in each of its instances, and memory has the objects' initial words.
pub fn libraries_begin_alike()
    ensures { (p : Program) (library : List Standing) (low : ℕ) → IsLibrary library low
        → (address_of : (inst declaration : ℕ) → ℕ) (K : Kernel) → IsWellFormedProgram p
        → AreAddressed p library address_of p.objects → Everywhere (IsObjectOf p address_of) library
        → (input : List ℤ) → HasInitialWords p address_of (code.begin K input).memory p.objects
        → Agree (CellsOf library) (source.initial p input).store (code.begin K input).memory }
{}

/// The kernel of a program is well-formed, where decisions have the graphs of their expressions, and at
/// most 32 conditions. Its rows are the statement obligations of its bodies, in order, each in its
/// instance; its conditions are those of their decisions, each as often as it is one of theirs: in the
/// code those of a nested decision stand before the condition that holds it. So each obligation has one
/// row in each instance in which it stands, and each condition one node, and there are no others. No body
/// leaves a loop but its own, and what is raised is a predefined exception or one of the program's.
pub fn kernels_hold_the_obligations()
    ensures well_formed { (p : Program) (K : Kernel) (s : Scheme) → IsWhole p K s → IsNumbered p
        → (graph : DecId → List Edges)
        → Everywhere (λ h. graph (record { 0 = h.label.number }) ≡ logic.graph (shape_of h.test))
        (decisions_of p.subprograms)
        → Everywhere (λ h. conditions_at h.test ≤ 32) (decisions_of p.subprograms)
        → IsWellFormed graph K }
    ensures rows { (p : Program) (K : Kernel) (s : Scheme) → IsWhole p K s → rows K ≡ rows_of p (bodies_of p) }
    ensures conditions { (p : Program) (K : Kernel) (s : Scheme) → IsWhole p K s → (weight : Condition → ℕ)
        → sum_by weight (conditions K) ≡ sum_by weight (conditions_of p (bodies_of p)) }
    ensures once { (p : Program) (K : Kernel) (s : Scheme) → IsWhole p K s → IsNumbered p
        → MarksOnce p (rows K) (conditions K) }
    ensures leaves { (p : Program) (K : Kernel) (s : Scheme) → IsWhole p K s
        → Everywhere (λ b. CodeLeaves false b.code) K.bodies }
    ensures raises { (p : Program) (K : Kernel) (s : Scheme) → IsWhole p K s
        → (graph : DecId → List Edges) → IsWellFormed graph K
        → (fuel : ℕ) (input : List ℤ) → RaisesOneOf (4 + length p.exceptions) (code.exec K fuel input) }
{}

/// It takes at most 60 instructions for each node of the bodies, where those of a generic count for each
/// of its instances, and for each of the nodes that cover its layouts, and 16 beside. So it takes at most
/// 240 bytes for each node, and 4,096 beside; and with no more than 4,096 nodes it is small enough for
/// machine code. A node for each layout and for each component of a record covers the layouts.
pub fn kernels_are_small()
    ensures instructions { (p : Program) (K : Kernel) (s : Scheme) → IsWhole p K s
        → (nodes : ℕ) → AreCovered K.layouts nodes
        → kernel_instructions K ≤ 60 * (expanded_nodes p + nodes) + 16 }
    ensures bytes { (p : Program) (K : Kernel) (s : Scheme) → IsWhole p K s
        → (nodes : ℕ) → AreCovered K.layouts nodes → (all : ℕ) → expanded_nodes p + nodes ≤ all
        → 4 * kernel_instructions K ≤ 240 * all + 4096 }
    ensures within { (p : Program) (K : Kernel) (s : Scheme) → IsWhole p K s
        → (nodes : ℕ) → AreCovered K.layouts nodes → expanded_nodes p + nodes ≤ 4096 → IsWithin K }
    ensures covered { (layouts : List Layout) → AreCovered layouts (layouts_nodes layouts) }
{}

/// Where the program's execution ends, such a kernel ends as it does, at a cost by which machine code that
/// takes at most 32 instructions for each unit of the kernel's cost, and 8 beside, takes at most 500 for
/// each unit of the execution's cost, and 5,000 beside.
#[tactic(auto, using(crate::proofs::AllFuels::in_time_law))]
pub fn kernels_end_in_time()
    ensures { (p : Program) (K : Kernel) (s : Scheme) → IsKernelBy p K s → (input : List ℤ) (x : Execution)
        → Ends p input x → EndsInTime x K input }
{}
