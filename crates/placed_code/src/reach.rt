//! What addresses come to.

ghost use Rattle.placed_code.specs.Laws.{FrameWordsLie, ConstantsSplit, BranchesLand, JumpsLand};

/// The words of a frame lie below its end, and any distance is the sum of an upper and a signed
/// immediate.
pub fn addresses_are_sums()
    ensures frame { FrameWordsLie }
    ensures far { ConstantsSplit }
{}

/// The offset from one address to another in reach leads there, and fits its instruction.
pub fn branches_and_jumps_land()
    ensures branches { BranchesLand }
    ensures jumps { JumpsLand }
{}
