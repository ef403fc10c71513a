//! Worked examples of what programs mean: small programs as trees, and what is observed of their
//! executions. Each function carries examples as its contract. They are shown by computing.
//!
//! No layer stands on this crate. It shows a reader of `ada_meaning` that its definitions say what
//! programs do.
#![tactic(auto)]

ghost use Rattle.ada_meaning.specs.WellFormed.{IsWellFormed};
ghost use Rattle.meaning_examples.specs.Composites.{ByParts, CompositeParameters};
ghost use Rattle.meaning_examples.specs.Control.{Choices, EndOfFunction, CutOff};
ghost use Rattle.meaning_examples.specs.Decisions.{Returns, AndFirst, OrFirst, Abandoned};
ghost use Rattle.meaning_examples.specs.Depth.{Deep, Signs, Limits};
ghost use Rattle.meaning_examples.specs.Exceptions.{Unhandled, OfOperations, InDeclarations, InHandlers};
ghost use Rattle.meaning_examples.specs.Frames.{factorial, OwnVariables, Places, WordsOfInput};
ghost use Rattle.meaning_examples.specs.Generics.{count, OwnObjects, OwnConstants};
ghost use Rattle.meaning_examples.specs.Loops.{t, While, For, ArrayAndCase};
ghost use Rattle.meaning_examples.specs.Nested.{InnerAbandoned, Recursive, AsOperand, AsIndex};
ghost use Rattle.meaning_examples.specs.Obliged.{OfNested, OfCount};
ghost use Rattle.meaning_examples.specs.Parameters.{CopiesBack, OutFirst, BothInstances};

/// Decisions, and an evaluation that an exception abandons.
pub fn decisions()
    ensures returned { Returns }
    ensures and_first { AndFirst }
    ensures or_first { OrFirst }
    ensures abandoned { Abandoned }
{}

/// Decisions inside decisions.
pub fn nested_decisions()
    ensures inner_abandoned { InnerAbandoned }
    ensures recursive { Recursive }
    ensures as_operand { AsOperand }
    ensures as_index { AsIndex }
{}

/// Loops, arrays and case statements. The last program is well-formed.
pub fn loops()
    ensures while_loops { While }
    ensures for_loops { For }
    ensures array_and_case { ArrayAndCase }
    ensures well_formed { IsWellFormed t }
{}

/// Exceptions.
pub fn exceptions()
    ensures unhandled { Unhandled }
    ensures of_operations { OfOperations }
    ensures in_declarations { InDeclarations }
    ensures in_handlers { InHandlers }
{}

/// Parameters, and instances of a generic.
pub fn parameters()
    ensures copies_back { CopiesBack }
    ensures out_first { OutFirst }
    ensures both_instances { BothInstances }
{}

/// The greatest depth of calls, and arithmetic at its limits.
pub fn limits()
    ensures deep { Deep }
    ensures signs { Signs }
    ensures at_limits { Limits }
{}

/// Arrays and records.
pub fn composites()
    ensures by_parts { ByParts }
    ensures composite_parameters { CompositeParameters }
{}

/// A generic with formals of each kind, and one with constants, each in two instances. The first program is
/// well-formed.
pub fn generics()
    ensures objects { OwnObjects }
    ensures constants { OwnConstants }
    ensures well_formed { IsWellFormed count }
{}

/// Choices and loops of other forms, the end of a function, and a loop without an end.
pub fn control()
    ensures choices { Choices }
    ensures end_of_function { EndOfFunction }
    ensures cut_off { CutOff }
{}

/// Obligations.
pub fn obligations()
    ensures of_nested { OfNested }
    ensures of_count { OfCount }
{}

/// Activations, places of actuals, and words of input. The first program is well-formed.
pub fn frames()
    ensures own_variables { OwnVariables }
    ensures well_formed { IsWellFormed factorial }
    ensures places { Places }
    ensures words_of_input { WordsOfInput }
{}
