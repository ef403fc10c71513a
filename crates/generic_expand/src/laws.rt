//! What copies mean.

ghost use Rattle.std.specs.Prelude.{◌≡◌, ◌≤◌, ◌+◌, ℕ, List, None, Some, length};
ghost use Rattle.ada_meaning.specs.Calls.{Argument, Calls};
ghost use Rattle.ada_meaning.specs.Copies.{subprogram_copy};
ghost use Rattle.ada_meaning.specs.Execution.{called};
ghost use Rattle.ada_meaning.specs.Program.{Program, Subprogram};
ghost use Rattle.ada_meaning.specs.Obligations.{IsNumbered};
ghost use Rattle.ada_tree.specs.Programs.{program_of};
ghost use Rattle.ada_tree.specs.Weights.{IsWeighed};
ghost use Rattle.ada_tree.specs.declared.program.Program.{Program as TypedProgram};
ghost use Rattle.ada_tree.specs.declared.program.Subprogram.{Subprogram as TypedSubprogram};
ghost use Rattle.ada_tree.specs.declared.program.UnitEntry.{UnitEntry};
ghost use Rattle.cov_base.specs.declared.position.Pos.{Pos};
ghost use Rattle.generic_expand.specs.Expanded as expanded;
ghost use Rattle.generic_expand.specs.Expanded.{first_past, instance_limit, node_limit, past_instances};
ghost use Rattle.generic_expand.specs.Limits.{PassesFirst, copies_weight, exception_count, instance_count, node_count, types_weight};

/// The copy of a subprogram for an instance means what the subprogram means in the instance: a call of it
/// has the same outcome, with the same events, the same output and the same cost (RM 12.3).
pub fn copies_mean_their_generic()
    ensures { (p : Program) (calls : Calls) (fuel inst : ℕ) (s : Subprogram) (arguments : List Argument)
        → called p calls fuel inst (Some (subprogram_copy p inst s)) arguments ≡ called p calls fuel inst (Some s) arguments }
{}

/// Units are within a limit or there is the one with which their count first passes it, in the order of
/// the files. An instance counts its own nodes and those of its generic, which counts nothing where it
/// stands.
pub fn limits_are_exact()
    ensures few_instances { (us : List UnitEntry) → past_instances 0 us ≡ None → instance_count us ≤ instance_limit }
    ensures many_instances { (us : List UnitEntry) (p : Pos) → past_instances 0 us ≡ Some p
        → PassesFirst (λ u. expanded.instances_in u.role) instance_limit us p }
    ensures few_nodes { (us : List UnitEntry) → first_past 0 us ≡ None → node_count us ≤ node_limit }
    ensures many_nodes { (us : List UnitEntry) (p : Pos) → first_past 0 us ≡ Some p
        → PassesFirst (λ u. expanded.expanded_nodes us u.role u.nodes) node_limit us p }
{}

/// Where what is made of a program weighs no more than its text, generic by generic, the copies of its
/// bodies, of its types and of its exceptions weigh no more than the expanded program has nodes. Where the
/// numbers of a program are given, it has as many exceptions as are declared, copies counted.
pub fn copies_are_within_the_nodes()
    ensures weight { (weight : TypedSubprogram → ℕ) (p : TypedProgram) → IsWeighed weight p
        → copies_weight weight p + types_weight p + exception_count p ≤ node_count p.units }
    ensures exceptions { (p : TypedProgram) → IsNumbered (program_of p) → length p.exceptions ≡ exception_count p }
{}
