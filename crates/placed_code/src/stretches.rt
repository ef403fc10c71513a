//! Stretches of a run of more than one instruction.

ghost use Rattle.placed_code.specs.Instructions.{LoopCounts};
ghost use Rattle.placed_code.specs.Laws.{NothingLeads, StretchesCompose, StretchesEnd};
ghost use Rattle.placed_code.specs.Straight.{StraightGoes, StraightArrives};

/// No instruction leads nowhere else, and two stretches of which the second begins where the first
/// ends are one stretch. One that comes to the end of the run is the whole run.
pub fn stretches_compose()
    ensures nothing { NothingLeads }
    ensures both { StretchesCompose }
    ensures end { StretchesEnd }
{}

/// Straight code leads to the state that is computed from its instructions, behind its last one.
pub fn straight_code_goes()
    ensures leads { StraightGoes }
    ensures arrives { StraightArrives }
{}

/// A loop that takes 1 from a register, and begins again while that is not 0, ends with 0 there and
/// nothing else changed, after two instructions for each turn.
pub fn a_loop_counts()
    ensures { LoopCounts }
{}
