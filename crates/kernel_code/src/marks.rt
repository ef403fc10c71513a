//! What is said of the code of a kernel in its marks.

ghost use Rattle.kernel_code.specs.Marked.{BodiesAreMarked, CandidatesComeOfItems, LayoutsAreMarked, StartIsMarked};

/// The marks of a body's piece are what the assembler asks for: rows of its items, and one role for
/// each of its conditional branches. They name the statements and the conditions of the body's code,
/// in order; those of a layout's piece and of the start name none. An instruction is the word
/// BNE x10, x0 just where it is the branch of a condition.
pub fn bodies_are_marked()
    ensures bodies { BodiesAreMarked }
    ensures layouts { LayoutsAreMarked }
    ensures candidates { CandidatesComeOfItems }
    ensures start { StartIsMarked }
{}
