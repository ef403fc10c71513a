//! Worked examples of command lines, as clauses. They are shown by computing what the definitions of
//! `specs/Task.antt` make of the words.

ghost use Rattle.command_words.specs.Examples.{Compiles, CompilesSeveral, Runs, Covers, CoversInEachForm, Consolidates, Asks, Lacks, Exceeds};

/// Words that are commands.
pub fn accepted()
    ensures compile { Compiles }
    ensures several { CompilesSeveral }
    ensures run { Runs }
    ensures coverage { Covers }
    ensures forms { CoversInEachForm }
    ensures consolidate { Consolidates }
{}

/// Words that are no command: they ask for help, lack something that has to be given or give it
/// twice, or go beyond a list or a range.
pub fn refused()
    ensures asks { Asks }
    ensures lacks { Lacks }
    ensures exceeds { Exceeds }
{}
