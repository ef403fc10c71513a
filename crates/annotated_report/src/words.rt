//! The words of a report.

ghost use Rattle.std.specs.Prelude.{◌≡◌};
ghost use Rattle.annotated_report.specs.Words.{level_word, missing_text};
ghost use Rattle.annotated_report.specs.Findings.{asks_outcomes, asks_pairs};

use crate::finding::Missing;
use cov_base::Level;

/// The word of a level on the command line and in reports.
pub fn level_word(level: Level) -> &'static str
    ensures { result.now ≡ level_word level }
{
    match level {
        Level::Stmt => "stmt",
        Level::Decision => "stmt+decision",
        Level::Mcdc => "stmt+mcdc",
        Level::UcMcdc => "stmt+uc_mcdc",
    }
}

/// What a report says of an obligation of which this is missing.
pub(crate) fn missing_text(missing: Missing) -> &'static str
    ensures { result.now ≡ missing_text missing }
{
    match missing {
        Missing::Execution => "statement not executed",
        Missing::Evaluation => "decision never evaluated",
        Missing::Outcome(true) => "decision outcome TRUE not covered",
        Missing::Outcome(false) => "decision outcome FALSE not covered",
        Missing::Pair => "condition not covered",
    }
}

/// Whether a level asks for the outcomes of decisions.
pub fn asks_outcomes(level: Level) -> bool
    ensures { result ≡ asks_outcomes level }
{
    !matches!(level, Level::Stmt)
}

/// Whether a level asks for the pairs of conditions.
pub fn asks_pairs(level: Level) -> bool
    ensures { result ≡ asks_pairs level }
{
    matches!(level, Level::Mcdc | Level::UcMcdc)
}
