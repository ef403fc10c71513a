//! Words: identifiers, reserved words and numerals.

ghost use Rattle.std.specs.Prelude.{◌≡◌, false};
ghost use Rattle.std.specs.List.{prefix_len};
ghost use Rattle.ada_lexer.specs.Word.{
  is_word_byte,
  has_single_underscores,
  numeral_of,
  name_of,
  reserved_word_of,
  word_of,
};
ghost use Rattle.ada_lexer.specs.Cut.{word_length};
ghost use Rattle.ada_lexer.specs.Table.{spelled_in};

use crate::token::Lexeme;

/// The greatest numeral.
const MAX_NUMERAL: u64 = 2_147_483_647;

/// The greatest length of an identifier.
const MAX_IDENTIFIER: usize = 200;

/// Whether a byte may stand in a word: a letter, a digit or an underscore.
pub fn is_word_byte(byte: u8) -> bool
    ensures { result ≡ is_word_byte byte }
{
    byte.is_ascii_alphanumeric() || byte == b'_'
}

/// The length of the word that a text begins with.
pub fn word_length(text: &[u8]) -> usize
    ensures { result ≡ word_length text.now }
{
    text.iter().take_while(|byte| is_word_byte(**byte)).count()
}

/// What a word is; none where it is ill formed, too long or too great.
pub fn word(word: &[u8]) -> Option<Lexeme>
    ensures { result ≡ word_of word.now }
{
    let first = *word.first()?;
    if !has_single_underscores(word) {
        None
    } else if first.is_ascii_digit() {
        numeral(word)
    } else {
        name(word)
    }
}

/// Whether each underscore stands between two letters or digits.
fn has_single_underscores(word: &[u8]) -> bool
    ensures { result ≡ has_single_underscores false word.now }
{
    let mut behind = false;
    for byte in word {
        if *byte == b'_' && !behind {
            return false;
        }
        behind = *byte != b'_';
    }
    behind
}

/// The numeral that is spelled so.
fn numeral(word: &[u8]) -> Option<Lexeme>
    ensures { result ≡ numeral_of word.now }
{
    let mut value: u64 = 0;
    for byte in word {
        match *byte {
            b'_' => {}
            b'0'..=b'9' => value = 10 * value + u64::from(*byte - b'0'),
            _ => return None,
        }
        if value > MAX_NUMERAL {
            return None;
        }
    }
    Some(Lexeme::Numeral(value as u32))
}

/// The reserved word that is spelled so, or else an identifier.
fn name(word: &[u8]) -> Option<Lexeme>
    ensures { result ≡ name_of word.now }
{
    match reserved_word(word) {
        Some(reserved) => Some(reserved),
        None if word.len() <= MAX_IDENTIFIER => Some(Lexeme::Identifier),
        None => None,
    }
}

/// The reserved word that is spelled so, its case ignored.
fn reserved_word(word: &[u8]) -> Option<Lexeme>
    ensures { result ≡ reserved_word_of word.now }
{
    spelled(&RESERVED_WORDS, word)
}

/// The lexeme of a table that is spelled so, its case ignored.
#[tactic(auto, unfolding(crate::specs::Table::spelled_in))]
fn spelled(table: &[(&str, Lexeme)], word: &[u8]) -> Option<Lexeme>
    ensures { result ≡ spelled_in table.now word.now }
{
    table
        .iter()
        .find(|(spelling, _)| spelling.as_bytes().eq_ignore_ascii_case(word))
        .map(|(_, lexeme)| *lexeme)
}

/// How the reserved words are spelled.
static RESERVED_WORDS: [(&str, Lexeme); 73] = [
    ("abort", Lexeme::Abort),
    ("abs", Lexeme::Abs),
    ("abstract", Lexeme::Abstract),
    ("accept", Lexeme::Accept),
    ("access", Lexeme::Access),
    ("aliased", Lexeme::Aliased),
    ("all", Lexeme::All),
    ("and", Lexeme::And),
    ("array", Lexeme::Array),
    ("at", Lexeme::At),
    ("begin", Lexeme::Begin),
    ("body", Lexeme::Body),
    ("case", Lexeme::Case),
    ("constant", Lexeme::Constant),
    ("declare", Lexeme::Declare),
    ("delay", Lexeme::Delay),
    ("delta", Lexeme::Delta),
    ("digits", Lexeme::Digits),
    ("do", Lexeme::Do),
    ("else", Lexeme::Else),
    ("elsif", Lexeme::Elsif),
    ("end", Lexeme::End),
    ("entry", Lexeme::Entry),
    ("exception", Lexeme::Exception),
    ("exit", Lexeme::Exit),
    ("for", Lexeme::For),
    ("function", Lexeme::Function),
    ("generic", Lexeme::Generic),
    ("goto", Lexeme::Goto),
    ("if", Lexeme::If),
    ("in", Lexeme::In),
    ("interface", Lexeme::Interface),
    ("is", Lexeme::Is),
    ("limited", Lexeme::Limited),
    ("loop", Lexeme::Loop),
    ("mod", Lexeme::Mod),
    ("new", Lexeme::New),
    ("not", Lexeme::Not),
    ("null", Lexeme::Null),
    ("of", Lexeme::Of),
    ("or", Lexeme::Or),
    ("others", Lexeme::Others),
    ("out", Lexeme::Out),
    ("overriding", Lexeme::Overriding),
    ("package", Lexeme::Package),
    ("pragma", Lexeme::Pragma),
    ("private", Lexeme::Private),
    ("procedure", Lexeme::Procedure),
    ("protected", Lexeme::Protected),
    ("raise", Lexeme::Raise),
    ("range", Lexeme::Range),
    ("record", Lexeme::Record),
    ("rem", Lexeme::Rem),
    ("renames", Lexeme::Renames),
    ("requeue", Lexeme::Requeue),
    ("return", Lexeme::Return),
    ("reverse", Lexeme::Reverse),
    ("select", Lexeme::Select),
    ("separate", Lexeme::Separate),
    ("some", Lexeme::Some),
    ("subtype", Lexeme::Subtype),
    ("synchronized", Lexeme::Synchronized),
    ("tagged", Lexeme::Tagged),
    ("task", Lexeme::Task),
    ("terminate", Lexeme::Terminate),
    ("then", Lexeme::Then),
    ("type", Lexeme::Type),
    ("until", Lexeme::Until),
    ("use", Lexeme::Use),
    ("when", Lexeme::When),
    ("while", Lexeme::While),
    ("with", Lexeme::With),
    ("xor", Lexeme::Xor),
];
