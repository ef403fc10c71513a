//! Runs: an object executed on an input, up to its end, a trap or a budget.

ghost use Rattle.std.specs.Prelude.{◌≡◌, []};
ghost use Rattle.rv_machine.specs.Objects.{object_run};
ghost use Rattle.object_format.specs.Checked.{IsSound};
ghost use Rattle.trace_record.specs.Recorded.{Records};
ghost use Rattle.rv32_emulator.specs.Ran.{Answers};

use crate::turn::{Turn, take_turn};
use cov_base::Failure;
use object_format::Object;
use rv_machine::{Machine, TrapWhy};
use std::alloc::Global;
use thiserror::Error;
use trace_record::Recorder;

/// How a run ended: 0 for return, else the number of an exception, and how many instructions were
/// executed.
#[derive(Clone, Copy, Debug, PartialEq, Eq)]
pub struct Ending {
    pub number: u32,
    pub count: u32,
}

/// Why a run has no ending.
#[derive(Clone, Copy, Debug, PartialEq, Eq, Error)]
pub enum RunFault {
    /// The budget was used up before the end.
    #[error("over budget after {count} instructions")]
    OverBudget { count: u32 },
    /// The instruction at `pc` trapped.
    #[error("trap at {pc:08x}: {why}")]
    Trap { pc: u32, why: TrapWhy },
}

/// Runs an object on an input for at most `budget` instructions. The recorder, which has seen
/// nothing yet, sees each executed instruction, the ending call too, and the words that the program
/// puts are added to `out`. Where memory is refused, the recorder and `out` hold a beginning.
pub fn run(
    alloc: Global,
    object: &Object,
    input: &[i32],
    budget: u32,
    recorder: &mut Recorder<'_>,
    out: &mut Vec<i32>,
) -> Result<Ending, Failure<RunFault>>
    requires object { IsSound object.now }
    requires same { recorder.old.object ≡ object.now }
    requires fresh { Records recorder.old [] }
    ensures answers { Answers budget (object_run object.now budget input.now) recorder.new out.old.items out.new.items
        result }
    ensures object { recorder.new.object ≡ recorder.old.object }
{
    let mut machine = Machine::new(alloc, object)?;
    let mut words = input;
    for done in 0..budget {
        match take_turn(&mut machine, words, recorder, out)? {
            Turn::On(rest) => words = rest,
            Turn::End(number) => {
                return Ok(Ending {
                    number,
                    count: done + 1,
                });
            }
            Turn::Trap { pc, why } => return Err(Failure::Fault(RunFault::Trap { pc, why })),
        }
    }
    Err(Failure::Fault(RunFault::OverBudget { count: budget }))
}
