//! The laws of runs, each proved for every image, state, input and budget.

ghost use Rattle.rv_semantics.specs.Laws.{StaysOver, HasOneEnding, BeginsLonger, CountsInstructions, CarriesTheRun};

/// A run has at most one ending. Under a smaller budget it is the beginning of the same run, and the
/// budget bounds how many instructions it executes.
pub fn a_run_has_one_ending()
    ensures stays { StaysOver }
    ensures one { HasOneEnding }
    ensures begins { BeginsLonger }
    ensures counts { CountsInstructions }
{}

/// A machine that carries its past carries the transcript in reverse, the output and the ending.
pub fn a_past_lists_the_run()
    ensures { CarriesTheRun }
{}
