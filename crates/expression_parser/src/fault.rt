//! Why reading stops.

ghost use Rattle.std.specs.Prelude.{◌≡◌};
ghost use Rattle.expression_parser.specs.declared.fault.Fault.TheVariants.{Memory};

use ada_lexer::Token;
use std::alloc::{AllocError, AllocFailed};

/// Why reading stops.
#[derive(Clone, Copy)]
pub enum Fault<'a> {
    /// No construct goes on with the first of these tokens, or, where there is none, none may end
    /// here.
    Syntax(&'a [Token]),
    /// Memory was refused, or the stack that deeper nesting would take.
    Memory,
}

/// What was read, and the tokens behind it.
pub type Parsed<'a, T> = Result<(T, &'a [Token]), Fault<'a>>;

impl From<AllocError> for Fault<'_> {
    ghost from_gives = { λ _ fault. fault ≡ Memory };

    fn from(_refused: AllocError) -> Self {
        Fault::Memory
    }
}

impl<T: Drop> From<AllocFailed<T>> for Fault<'_> {
    ghost from_gives = { λ _ fault. fault ≡ Memory };

    fn from(_refused: AllocFailed<T>) -> Self {
        Fault::Memory
    }
}
