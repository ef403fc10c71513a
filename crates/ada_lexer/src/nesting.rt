//! How deep a source nests.

ghost use Rattle.std.specs.Prelude.{◌≡◌, ◌≤◌, ◌<◌};
ghost use Rattle.ada_lexer.specs.Nesting.{depth_behind, is_too_deep, nested_of};

use crate::token::{Lexeme, Token};
use cov_base::Pos;

/// The greatest depth of parentheses, and that of constructs.
const MAX_DEPTH: u32 = 64;

/// How deep a place is.
#[derive(Clone, Copy)]
struct Depth {
    /// How many parentheses are open.
    parentheses: u32,
    /// How many constructs are open: of `if`, `case`, `loop`, `begin` and `record`.
    constructs: u32,
    /// Whether `end` stands just before the place: a word there opens no construct.
    after_end: bool,
}

impl Depth {
    /// The depth behind a lexeme.
    fn behind(self, lexeme: Lexeme) -> Depth
        requires parentheses { self.parentheses < 65 }
        requires constructs { self.constructs < 65 }
        ensures { result ≡ depth_behind self lexeme }
    {
        let level = Depth {
            after_end: false,
            ..self
        };
        match lexeme {
            Lexeme::LeftParenthesis => Depth {
                parentheses: self.parentheses + 1,
                ..level
            },
            Lexeme::RightParenthesis => Depth {
                parentheses: self.parentheses.saturating_sub(1),
                ..level
            },
            Lexeme::If | Lexeme::Case | Lexeme::Loop | Lexeme::Begin | Lexeme::Record => Depth {
                constructs: self.constructs + u32::from(!self.after_end),
                ..level
            },
            Lexeme::End => Depth {
                constructs: self.constructs.saturating_sub(1),
                after_end: true,
                ..self
            },
            _ => level,
        }
    }

    /// Whether more is open than the limits allow.
    fn is_too_deep(self) -> bool
        ensures { result ≡ is_too_deep self }
    {
        self.parentheses > MAX_DEPTH || self.constructs > MAX_DEPTH
    }
}

/// The place of the first token with which more than 64 parentheses, or more than 64 constructs, are
/// open; none where no token is one. `if`, `case`, `loop`, `begin` and `record` open a construct
/// where they don't follow `end`, which closes one.
pub fn nested(tokens: &[Token]) -> Option<Pos>
    ensures { result ≡ nested_of tokens.now }
{
    let mut depth = Depth {
        parentheses: 0,
        constructs: 0,
        after_end: false,
    };
    for token in tokens {
        depth = depth.behind(token.lexeme);
        if depth.is_too_deep() {
            return Some(token.pos);
        }
    }
    None
}
