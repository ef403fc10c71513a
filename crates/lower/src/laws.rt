//! What holds of kernels of programs.

ghost use Rattle.ada_meaning.specs.WellFormed.{IsWellFormed};
ghost use Rattle.ada_tree.specs.declared.program.Program.{Program};
ghost use Rattle.ada_tree.specs.Programs.{program_of};
ghost use Rattle.cov_base.specs.Lists.{Everywhere};
ghost use Rattle.generic_expand.specs.Expanded.{copies_of};
ghost use Rattle.generic_expand.specs.Limits.{types_weight};
ghost use Rattle.statement_code.specs.Copies.{AreCovered};
ghost use Rattle.statement_code.specs.Kernels.{IsWhole};
ghost use Rattle.statement_code.specs.Laid.{IsLaidKernel};
ghost use Rattle.storage_layout.specs.Layouts.{HasWord, layouts_of};
ghost use Rattle.lower.specs.Kernel.{kernel_for};
ghost use Rattle.lower.specs.Schemes.{scheme_for};
ghost use Rattle.lower.specs.Standing.{AreTypesNamed, IsWithinLimits};

/// The kernel of a well-formed program within the limits is laid out: its bodies are those of the program, in
/// their order, each in its frame; the library level stands below all frames and has its initial words; each
/// type has its layout. So it is whole, and what `statement_code` proves of whole kernels holds of it.
pub fn kernels_are_laid()
    ensures laid { (p : Program) → IsWellFormed (program_of p) → AreTypesNamed p → IsWithinLimits p
        → Everywhere HasWord (layouts_of p).layouts
        → IsLaidKernel (program_of p) (kernel_for p (copies_of (program_of p))) (scheme_for p (copies_of (program_of p))) }
    ensures whole { (p : Program) → IsWellFormed (program_of p) → AreTypesNamed p → IsWithinLimits p
        → Everywhere HasWord (layouts_of p).layouts
        → IsWhole (program_of p) (kernel_for p (copies_of (program_of p))) (scheme_for p (copies_of (program_of p))) }
    ensures covered { (p : Program) → AreCovered (layouts_of p).layouts (types_weight p) }
{}
