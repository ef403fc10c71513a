//! The lexer: cuts the bytes of an Ada source into its tokens, and tests how deep they nest.
//!
//! The contract that the layers above use: [`lex`] gives exactly the tokens of the source, each the
//! slice of its text between its offsets, one behind the other; or the place of the first byte where
//! nothing of the language stands.
#![tactic(auto)]

mod cut;
mod lexer;
mod nesting;
mod token;
mod word;

pub use lexer::{LexFault, lex};
pub use nesting::nested;
pub use token::{Lexeme, Token, TokenKind};
