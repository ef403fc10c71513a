//! What stands at the front of a text.

ghost use Rattle.std.specs.Prelude.{◌≡◌, ◌<◌, ◌≤◌, length, IfSome};
ghost use Rattle.ada_lexer.specs.Cut.{
  is_separator,
  is_printable,
  string_rest,
  comment_length,
  longest_delimiter_of,
  delimiter_of,
  cut_of,
  length_of,
};
ghost use Rattle.ada_lexer.specs.Table.{begun_in};

use crate::token::Lexeme;
use crate::word::{is_word_byte, word, word_length};

/// What is cut off the front of a text, and how many bytes it takes.
#[derive(Clone, Copy)]
pub enum Cut {
    /// A separator or a comment.
    Blank(usize),
    /// A token.
    Token(Lexeme, usize),
}

/// What is cut off the front of a text; none where nothing of the language stands there.
pub fn cut_off(text: &[u8]) -> Option<Cut>
    ensures cut { result ≡ cut_of text.now }
    ensures within { IfSome result (λ c. length_of c ≤ length text.now) }
    ensures some { IfSome result (λ c. 0 < length_of c) }
{
    let (first, rest) = text.split_first()?;
    if is_separator(*first) {
        Some(Cut::Blank(1))
    } else if text.starts_with(b"--") {
        Some(Cut::Blank(comment_length(text)))
    } else if *first == b'"' {
        string_rest(rest).map(|length| Cut::Token(Lexeme::Text, length + 1))
    } else if is_word_byte(*first) {
        let length = word_length(text);
        word(&text[..length]).map(|lexeme| Cut::Token(lexeme, length))
    } else {
        delimiter(text)
    }
}

/// Whether a byte separates tokens.
fn is_separator(byte: u8) -> bool
    ensures { result ≡ is_separator byte }
{
    matches!(byte, b' ' | b'\t' | b'\r' | b'\n')
}

/// The length of the comment that a text begins with: up to the end of its line.
fn comment_length(text: &[u8]) -> usize
    ensures length { result ≡ comment_length text.now }
    ensures within { result ≤ length text.now }
{
    text.iter().take_while(|byte| **byte != b'\n').count()
}

/// The length of a string literal behind its first quote.
fn string_rest(text: &[u8]) -> Option<usize>
    ensures rest { result ≡ string_rest text.now }
    ensures within { IfSome result (λ n. n ≤ length text.now) }
{
    let mut length = 0;
    let mut rest = text;
    while let Some((byte, after)) = rest.split_first() {
        match *byte {
            b'"' => match after.split_first() {
                Some((b'"', behind)) => {
                    length += 2;
                    rest = behind;
                }
                _ => return Some(length + 1),
            },
            b' '..=b'~' => {
                length += 1;
                rest = after;
            }
            _ => return None,
        }
    }
    None
}

/// The token of the longest delimiter that a text begins with.
fn delimiter(text: &[u8]) -> Option<Cut>
    ensures cut { result ≡ delimiter_of text.now }
    ensures within { IfSome result (λ c. length_of c ≤ length text.now) }
    ensures some { IfSome result (λ c. 0 < length_of c) }
{
    let (lexeme, length) = longest_delimiter(text)?;
    lexeme.map(|lexeme| Cut::Token(lexeme, length))
}

/// The longest delimiter that a text begins with, if it is one of this language, and its length.
fn longest_delimiter(text: &[u8]) -> Option<(Option<Lexeme>, usize)>
    ensures delimiter { result ≡ longest_delimiter_of text.now }
    ensures within { IfSome result (λ d. d.1 ≤ length text.now) }
    ensures some { IfSome result (λ d. 0 < d.1) }
{
    begun(&DELIMITERS, text)
}

/// The first entry of a table that a text begins with, and its length.
#[tactic(auto, unfolding(crate::specs::Table::begun_in))]
fn begun(table: &[(&str, Option<Lexeme>)], text: &[u8]) -> Option<(Option<Lexeme>, usize)>
    ensures { result ≡ begun_in table.now text.now }
{
    table
        .iter()
        .find(|(spelling, _)| text.starts_with(spelling.as_bytes()))
        .map(|(spelling, lexeme)| (*lexeme, spelling.len()))
}

/// How the delimiters are spelled, each before those that it begins with. Three of Ada's are none of
/// this language.
static DELIMITERS: [(&str, Option<Lexeme>); 25] = [
    ("=>", Some(Lexeme::Arrow)),
    (":=", Some(Lexeme::Becomes)),
    ("..", Some(Lexeme::DoubleDot)),
    ("/=", Some(Lexeme::NotEqual)),
    ("<=", Some(Lexeme::LessOrEqual)),
    (">=", Some(Lexeme::GreaterOrEqual)),
    ("<>", Some(Lexeme::Box)),
    ("**", None),
    ("<<", None),
    (">>", None),
    ("(", Some(Lexeme::LeftParenthesis)),
    (")", Some(Lexeme::RightParenthesis)),
    (",", Some(Lexeme::Comma)),
    (";", Some(Lexeme::Semicolon)),
    (":", Some(Lexeme::Colon)),
    (".", Some(Lexeme::Dot)),
    ("'", Some(Lexeme::Tick)),
    ("+", Some(Lexeme::Plus)),
    ("-", Some(Lexeme::Minus)),
    ("*", Some(Lexeme::Star)),
    ("/", Some(Lexeme::Slash)),
    ("=", Some(Lexeme::Equal)),
    ("<", Some(Lexeme::Less)),
    (">", Some(Lexeme::Greater)),
    ("|", Some(Lexeme::Bar)),
];
