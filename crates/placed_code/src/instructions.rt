//! What single instructions do where they stand.

ghost use Rattle.placed_code.specs.Instructions.{UpperGoes, ImmediateGoes, ShiftGoes, RegisterGoes, LoadGoes, StoreGoes, BranchGoes, BranchGoesOn, JumpGoes, RegisterJumpGoes};

/// Instructions that compute leave their result in a register, and the next one follows.
pub fn registers_are_written()
    ensures upper { UpperGoes }
    ensures immediate { ImmediateGoes }
    ensures shift { ShiftGoes }
    ensures register { RegisterGoes }
{}

/// Loads leave what memory has in a register, and stores leave a register's value in memory.
pub fn memory_is_read_and_written()
    ensures load { LoadGoes }
    ensures store { StoreGoes }
{}

/// A branch goes to its target where its comparison holds, and to the next instruction elsewhere.
pub fn branches_go()
    ensures taken { BranchGoes }
    ensures not_taken { BranchGoesOn }
{}

/// Jumps go to their targets, and leave the address of the next instruction in a register.
pub fn jumps_go()
    ensures jump { JumpGoes }
    ensures register_jump { RegisterJumpGoes }
{}
