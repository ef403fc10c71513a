//! What a refusal says. The function does nothing: it carries a law of the definitions as its contract.

ghost use Rattle.std.specs.Prelude.{ℕ, List};
ghost use Rattle.cov_base.specs.declared.failure.Failure.TheVariants.{Fault};
ghost use Rattle.ada_syntax.specs.declared.unit.Unit.{Unit as LibraryUnit};
ghost use Rattle.walked_program.specs.declared.fault.CheckFault.{CheckFault};
ghost use Rattle.walked_program.specs.Checking.{Refuses, IsBroken};
ghost use Rattle.program_weights.specs.Wholes.{whole_library};

use ada_rules::a_refusal_has_a_reason;

/// Each refusal is one of a rule on names or on types that a construct breaks at its place, while its
/// parts keep theirs, of a demand on static values that fails in some instance, or of a counted limit that
/// is passed where all rules hold.
pub fn a_refusal_is_of_a_broken_rule()
    ensures { (units : List LibraryUnit) (main : List ℕ) (fault : CheckFault) → Refuses units main (Fault fault)
        → IsBroken (whole_library units) main fault }
{
    a_refusal_has_a_reason();
}
