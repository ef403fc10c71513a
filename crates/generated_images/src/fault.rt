//! What is wrong with a step.

use cov_base::Failure;
use std::fmt;

/// Why a step builds and asks nothing.
#[derive(Clone, Copy)]
pub enum StepFault {
    Step,
    Number,
    Code,
    Image,
}

impl fmt::Display for StepFault {
    fn fmt<W: fmt::Write>(&self, f: &mut fmt::Formatter<W>) -> fmt::Result {
        f.write_str(match self {
            StepFault::Step => "no such step",
            StepFault::Number => "no number",
            StepFault::Code => "no code",
            StepFault::Image => "no image",
        })
    }
}

/// What a step answers beside the text that it adds.
pub type Answer = Result<(), Failure<StepFault>>;
