//! Where code stands.

ghost use Rattle.placed_code.specs.Laws.{StandsInParts, PartsStand, EachStands, TextStands, IsExecuted};

/// Code of two parts stands where its parts do, and each of its instructions at its own address.
pub fn code_stands_in_parts()
    ensures parts { StandsInParts }
    ensures whole { PartsStand }
    ensures each { EachStands }
{}

/// Instructions whose words are part of a text within memory stand at the address of their part.
pub fn a_text_stands()
    ensures { TextStands }
{}

/// An instruction that stands at the program counter is the one that a step executes.
pub fn an_instruction_is_executed()
    ensures { IsExecuted }
{}
