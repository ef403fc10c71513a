//! What the types of a legal program weigh: no more than their declarations have tokens that count, in all
//! and by the generics in whose text they stand. Laws over the definitions of `ada_rules` and `ada_meaning`
//! alone. The functions here do nothing: each carries a law of the definitions as its contract.
#![tactic(auto)]

ghost use Rattle.std.specs.Prelude.{ℕ, List, Option, ◌≤◌};
ghost use Rattle.ada_syntax.specs.declared.unit.Unit.{Unit as LibraryUnit};
ghost use Rattle.ada_meaning.specs.Program.{Program};
ghost use Rattle.ada_rules.specs.Entities.{Standard};
ghost use Rattle.ada_rules.specs.Library.{library_of};
ghost use Rattle.legal_instances.specs.legal_programs.specs.Walked.{IsLegal};
ghost use Rattle.legal_types.specs.TextGenerics.{units_in};
ghost use Rattle.legal_types.specs.TypeTokens.{item_types, units_types};
ghost use Rattle.program_weights.specs.TypeWeights.{types_weight, types_weight_in};

pub use legal_instances::{instances_have_their_facts, orders_of_legal_programs_are_whole};

/// The composite types that a legal program declares weigh no more than the declarations of types in its
/// units have tokens.
pub fn types_weigh_no_more_than_their_text()
    ensures { (standard : Standard) (units : List LibraryUnit) (main : List ℕ) (p : Program)
        → (is : IsLegal (library_of standard units) main p)
        → types_weight is.walked.next.types_declared ≤ units_types units }
{
    legal_instances::orders_of_legal_programs_are_whole();
}

/// And by the generics: those that it declares in the text of a generic, or of none, weigh no more than the
/// declarations of types in this text have tokens.
pub fn types_of_each_generic_weigh_no_more_than_their_text()
    ensures { (standard : Standard) (units : List LibraryUnit) (main : List ℕ) (p : Program)
        → (is : IsLegal (library_of standard units) main p) → (g : Option ℕ)
        → types_weight_in g is.walked.next.types_declared
        ≤ units_in item_types g is.walk.seen.world (library_of standard units) 0 units }
{
    legal_instances::orders_of_legal_programs_are_whole();
}
