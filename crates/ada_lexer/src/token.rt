//! The tokens of a source text: what each is, where it stands, and its text.

ghost use Rattle.std.specs.Prelude.{◌≡◌};
ghost use Rattle.ada_lexer.specs.Lexeme.{is_delimiter, kind_of};

use cov_base::{Bytes, Pos};

/// What a token is (Ada RM 2012, 2.2 to 2.9): an identifier, a numeral, a string literal, one of the
/// 73 reserved words, or a delimiter.
#[derive(Clone, Copy, Debug, PartialEq, Eq)]
pub enum Lexeme {
    /// An identifier: at most 200 letters, digits and underscores. Its case counts nothing.
    Identifier,
    /// A decimal numeral without point or exponent, and its value: at most 2147483647.
    Numeral(u32),
    /// A string literal. The token's text has its quotes, and two quotes for each quote within.
    Text,
    Abort,
    Abs,
    Abstract,
    Accept,
    Access,
    Aliased,
    All,
    And,
    Array,
    At,
    Begin,
    Body,
    Case,
    Constant,
    Declare,
    Delay,
    Delta,
    Digits,
    Do,
    Else,
    Elsif,
    End,
    Entry,
    Exception,
    Exit,
    For,
    Function,
    Generic,
    Goto,
    If,
    In,
    Interface,
    Is,
    Limited,
    Loop,
    Mod,
    New,
    Not,
    Null,
    Of,
    Or,
    Others,
    Out,
    Overriding,
    Package,
    Pragma,
    Private,
    Procedure,
    Protected,
    Raise,
    Range,
    Record,
    Rem,
    Renames,
    Requeue,
    Return,
    Reverse,
    Select,
    Separate,
    Some,
    Subtype,
    Synchronized,
    Tagged,
    Task,
    Terminate,
    Then,
    Type,
    Until,
    Use,
    When,
    While,
    With,
    Xor,
    /// `(`
    LeftParenthesis,
    /// `)`
    RightParenthesis,
    /// `,`
    Comma,
    /// `;`
    Semicolon,
    /// `:`
    Colon,
    /// `.`
    Dot,
    /// `'`
    Tick,
    /// `+`
    Plus,
    /// `-`
    Minus,
    /// `*`
    Star,
    /// `/`
    Slash,
    /// `=`
    Equal,
    /// `<`
    Less,
    /// `>`
    Greater,
    /// `|`
    Bar,
    /// `=>`
    Arrow,
    /// `:=`
    Becomes,
    /// `..`
    DoubleDot,
    /// `/=`
    NotEqual,
    /// `<=`
    LessOrEqual,
    /// `>=`
    GreaterOrEqual,
    /// `<>`
    Box,
}

/// The five kinds of token.
#[derive(Clone, Copy, Debug, PartialEq, Eq)]
pub enum TokenKind {
    /// An identifier.
    Word,
    /// A reserved word.
    Reserved,
    /// A numeral.
    Numeral,
    /// A string literal.
    Text,
    /// A delimiter.
    Delimiter,
}

impl Lexeme {
    /// The kind of the lexeme.
    pub fn kind(self) -> TokenKind
        ensures { result ≡ kind_of self }
    {
        match self {
            Lexeme::Identifier => TokenKind::Word,
            Lexeme::Numeral(_) => TokenKind::Numeral,
            Lexeme::Text => TokenKind::Text,
            delimiter if delimiter.is_delimiter() => TokenKind::Delimiter,
            _ => TokenKind::Reserved,
        }
    }

    /// Whether the lexeme is a delimiter.
    fn is_delimiter(self) -> bool
        ensures { result ≡ is_delimiter self }
    {
        matches!(
            self,
            Lexeme::LeftParenthesis
                | Lexeme::RightParenthesis
                | Lexeme::Comma
                | Lexeme::Semicolon
                | Lexeme::Colon
                | Lexeme::Dot
                | Lexeme::Tick
                | Lexeme::Plus
                | Lexeme::Minus
                | Lexeme::Star
                | Lexeme::Slash
                | Lexeme::Equal
                | Lexeme::Less
                | Lexeme::Greater
                | Lexeme::Bar
                | Lexeme::Arrow
                | Lexeme::Becomes
                | Lexeme::DoubleDot
                | Lexeme::NotEqual
                | Lexeme::LessOrEqual
                | Lexeme::GreaterOrEqual
                | Lexeme::Box
        )
    }
}

/// A token: what it is, the place of its first byte, and its text, which is the bytes `from..to` of
/// its source.
pub struct Token {
    pub lexeme: Lexeme,
    /// The place of its first byte.
    pub pos: Pos,
    /// The offset of its first byte in the source, from 0.
    pub from: u32,
    /// The offset behind its last byte.
    pub to: u32,
    /// Its bytes, as they stand in the source.
    pub text: Bytes,
}

// Written out: a derived drop is proved anew in each crate above.
impl Drop for Token {
    fn drop(self) {
        let Token {
            lexeme: _,
            pos: _,
            from: _,
            to: _,
            text: _,
        } = self;
    }
}

impl Token {
    /// The kind of the token.
    pub fn kind(&self) -> TokenKind
        ensures { result ≡ kind_of self.now.lexeme }
    {
        self.lexeme.kind()
    }
}
