//! Where a rule of the language is broken.

ghost use Rattle.std.specs.Prelude.{◌≡◌};
ghost use Rattle.ada_entities.specs.Answers.{refusal};

use cov_base::{Failure, Pos};
use thiserror::Error;

/// A construct breaks a rule of the language. The place is that of its first token.
#[derive(Clone, Copy, Debug, PartialEq, Eq, Error)]
#[error("not legal")]
pub struct Refusal {
    pub pos: Pos,
}

/// A refusal at a place.
pub fn refused(pos: Pos) -> Failure<Refusal>
    ensures { result ≡ refusal pos }
{
    Failure::Fault(Refusal { pos })
}
