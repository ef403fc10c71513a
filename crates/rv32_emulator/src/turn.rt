//! One instruction of a run.

ghost use Rattle.std.specs.Prelude.{◌≡◌, ◌++◌, ◌∷◌, [], ℕ, suc, ℤ, List, OnOk, OnErr, Some, None};
ghost use Rattle.std.specs.Result.{result_ok};
ghost use Rattle.object_facts.specs.Object.{IsTranscript};
ghost use Rattle.rv_machine.specs.Machine.{image_of, state_of};
ghost use Rattle.rv_semantics.specs.declared.stepped.Seen.{Seen};
ghost use Rattle.rv_semantics.specs.Run.{Run};
ghost use Rattle.trace_record.specs.Recorded.{Records};
ghost use Rattle.rv32_emulator.specs.Ran.{Stands, Turns};

use crate::input::next_word;
use rv_machine::{Machine, Seen, Stepped, TrapWhy};
use std::alloc::AllocError;
use trace_record::Recorder;

/// What one instruction came to: the run goes on with the words that were not read yet, it ended
/// with a number, or it trapped.
#[derive(Clone, Copy, PartialEq, Eq)]
pub enum Turn<'a> {
    On(&'a [i32]),
    End(u32),
    Trap { pc: u32, why: TrapWhy },
}

/// Executes one instruction, shows it to the recorder, and reads or puts a word if the instruction
/// asks for it.
pub fn take_turn<'a>(
    machine: &mut Machine<'_>,
    words: &'a [i32],
    recorder: &mut Recorder<'_>,
    out: &mut Vec<i32>,
) -> Result<Turn<'a>, AllocError>
    ensures image { image_of machine.new ≡ image_of machine.old }
    ensures object { recorder.new.object ≡ recorder.old.object }
    ensures turned { (run : Run) (left count : ℕ) (first : List ℤ) → IsTranscript recorder.old.object run.entries
        → Stands run (image_of machine.old) (suc left)
        (state_of machine.old) words.now recorder.old first out.old.items count
        → Turns run (image_of machine.old) left (state_of machine.new) recorder.new first out.new.items count
        (result_ok result) }
{
    match machine.step() {
        Stepped::Went(seen) => {
            show(recorder, seen)?;
            Ok(Turn::On(words))
        }
        Stepped::Get(seen) => {
            show(recorder, seen)?;
            let (word, rest) = next_word(words);
            machine.give(word);
            Ok(Turn::On(rest))
        }
        Stepped::Put(seen, word) => {
            show(recorder, seen)?;
            put(out, word)?;
            Ok(Turn::On(words))
        }
        Stepped::End(seen, number) => {
            show(recorder, seen)?;
            Ok(Turn::End(number))
        }
        Stepped::Trap { pc, why } => Ok(Turn::Trap { pc, why }),
    }
}

/// Shows the recorder an executed instruction. It is done at each step, so a call would be dear.
#[inline(always)]
fn show(recorder: &mut Recorder<'_>, seen: Seen) -> Result<(), AllocError>
    ensures recorded { OnOk result ((ss : List Seen) → Records recorder.old ss
        → IsTranscript recorder.old.object (ss ++ seen ∷ []) → Records recorder.new (ss ++ seen ∷ [])) }
    ensures object { recorder.new.object ≡ recorder.old.object }
    ensures refused { OnErr result (recorder.new ≡ recorder.old) }
{
    recorder.see(seen.pc, seen.edge, seen.x8)
}

/// Puts a word behind the others.
fn put(out: &mut Vec<i32>, word: i32) -> Result<(), AllocError>
    ensures put { OnOk result (out.new.items ≡ out.old.items ++ word ∷ []) }
    ensures refused { OnErr result (out.new.items ≡ out.old.items) }
{
    out.push(word)?;
    Ok(())
}
