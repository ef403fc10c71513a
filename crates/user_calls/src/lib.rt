//! What a user's whole way comes to: laws over a list of calls of gnatcov that cite the clauses of these
//! calls and nothing below. The functions here do nothing: each carries a law as its contract.
#![tactic(auto)]

ghost use Rattle.std.specs.Prelude.{◌≡◌, ℕ, List};
ghost use Rattle.ada_meaning.specs.Program.{Program};
ghost use Rattle.cov_base.specs.declared.obligations.SourceFile.{SourceFile};
ghost use Rattle.program_objects.specs.Legal.{IsLegal};
ghost use Rattle.user_calls.specs.Example.{ThreeRunsInOneFile};
ghost use Rattle.user_calls.specs.GoesOn.{AUseGoesOn};
ghost use Rattle.user_calls.specs.Grouping.{CoverageKnowsNoGrouping, ConsolidationKnowsNoGrouping};
ghost use Rattle.user_calls.specs.Use.{AUseTellsTheSources};

/// Sources are compiled, the object is run any number of times, traces and consolidated files are consolidated in any
/// grouping, and coverage is asked over any of these files: what it puts tells the sources' own executions on the
/// inputs of the runs that reached it.
#[tactic(auto, using(crate::proofs::WayLaws::use_law))]
pub fn a_use_tells_the_sources()
    ensures { AUseTellsTheSources }
{}

/// Where nothing outside fails, a further call of a use does its work: a run on an input on which the program's own
/// execution ends within the budget, and coverage and consolidation of files that are of runs.
#[tactic(auto, using(crate::proofs::GoesOnLaws::goes_on_law))]
pub fn a_use_goes_on()
    ensures { AUseGoesOn }
{}

/// Two ways of grouping runs on the same inputs, in any order, repeated or not and under any budgets, give the same
/// text at each level and in each form, and the same consolidated file.
pub fn grouping_of_runs_does_not_matter()
    ensures coverage { CoverageKnowsNoGrouping }
    ensures consolidation { ConsolidationKnowsNoGrouping }
{}

/// An example: a consolidated file that was made of another one and of a trace.
#[tactic(auto, using(crate::proofs::ExampleLaws::example_law))]
pub fn a_file_can_be_of_three_runs()
    ensures { ThreeRunsInOneFile }
{}

/// Sources are at most one legal program, so the one whose executions are told is theirs.
pub fn sources_are_one_program()
    ensures { (files : List SourceFile) (main : List ℕ) (p q : Program) → IsLegal files main p → IsLegal files main q
        → p ≡ q }
{}
