//! Formal parameters of generic packages (Ada RM 2012, 12.1, 12.4 to 12.6).

ghost use Rattle.std.specs.Prelude.{◌≡◌, ◌<◌, ◌≤◌, length, IfOk};
ghost use Rattle.expression_parser.specs.Reading.{Got};
ghost use Rattle.expression_parser.specs.Shows.{Shows, ShowsAs, Reads, next_is};
ghost use Rattle.declaration_parser.specs.FormalReading as read;

use crate::profiles::specification;
use crate::words::closed_by;
use ada_lexer::Token;
use ada_syntax::{Formal, FormalKind, Identifier, Mode};
use expression_parser::{Extent, Fault, Parsed, Parser, Symbol, behind, symbol_in};

/// `[IN]`
#[tactic(auto, using(crate::proofs::FormalCode::mode_rules))]
fn formal_mode(tokens: &[Token]) -> (Mode, &[Token])
    ensures reads { read.formal_mode_by tokens.now ≡ Got result.0 result.1.now }
    ensures no_longer { length result.1.now ≤ length tokens.now }
{
    match behind(Symbol::In, tokens) {
        Some(rest) => (Mode::In, rest),
        None => (Mode::Default, tokens),
    }
}

/// `( <> ) ; | RANGE <> ;` of the type of this name
fn formal_type_rest<'a>(name: Identifier, tokens: &'a [Token]) -> Parsed<'a, FormalKind>
    ensures reads { Shows (Reads (λ m. read.formal_type_rest name) tokens.now) result }
    ensures shorter { IfOk result (λ x. length x.1.now < length tokens.now) }
{
    if let Some(rest) = behind(Symbol::Range, tokens) {
        let kind = closed_by(Symbol::Box, Ok((FormalKind::IntegerType(name), rest)));
        return closed_by(Symbol::Semicolon, kind);
    }
    let kind = closed_by(
        Symbol::LeftParenthesis,
        Ok((FormalKind::DiscreteType(name), tokens)),
    );
    let kind = closed_by(Symbol::Box, kind);
    let kind = closed_by(Symbol::RightParenthesis, kind);
    closed_by(Symbol::Semicolon, kind)
}

/// `id IS ( <> ) ; | id IS RANGE <> ;` behind `TYPE`
fn formal_type<'a>(parser: Parser, tokens: &'a [Token]) -> Parsed<'a, FormalKind>
    ensures reads { Shows (Reads read.formal_type_by tokens.now) result }
    ensures shorter { IfOk result (λ x. length x.1.now < length tokens.now) }
{
    let (name, rest) = closed_by(Symbol::Is, parser.identifier(tokens))?;
    formal_type_rest(name, rest)
}

/// `id : [IN] name ;`
fn formal_object<'a>(parser: Parser, tokens: &'a [Token]) -> Parsed<'a, FormalKind>
    ensures reads { Shows (Reads (read.formal_object_by parser.extent) tokens.now) result }
    ensures shorter { IfOk result (λ x. length x.1.now < length tokens.now) }
{
    let (name, rest) = closed_by(Symbol::Colon, parser.identifier(tokens))?;
    let (mode, rest) = formal_mode(rest);
    let (mark, rest) = closed_by(Symbol::Semicolon, parser.name(rest))?;
    Ok((FormalKind::Object(name, mode, mark), rest))
}

/// `spec ;` behind `WITH`
fn formal_subprogram<'a>(parser: Parser, tokens: &'a [Token]) -> Parsed<'a, FormalKind>
    ensures reads { Shows (Reads (read.formal_subprogram_by parser.extent) tokens.now) result }
    ensures shorter { IfOk result (λ x. length x.1.now < length tokens.now) }
{
    let (specification, rest) = closed_by(Symbol::Semicolon, specification(parser, tokens))?;
    Ok((FormalKind::Subprogram(specification), rest))
}

/// What a formal is, by its first token.
#[tactic(auto, using(crate::proofs::FormalCode::form_rules))]
fn formal_form<'a>(parser: Parser, tokens: &'a [Token]) -> Parsed<'a, FormalKind>
    ensures reads { Shows (Reads (read.formal_form parser.extent) tokens.now) result }
    ensures shorter { IfOk result (λ x. length x.1.now < length tokens.now) }
{
    let Some((token, rest)) = tokens.split_first() else {
        return Err(Fault::Syntax(tokens));
    };
    match symbol_in(token.lexeme) {
        Symbol::Type => formal_type(parser, rest),
        Symbol::Identifier => formal_object(parser, tokens),
        Symbol::With => formal_subprogram(parser, rest),
        _ => Err(Fault::Syntax(tokens)),
    }
}

/// What a formal is. Formals come with [`Extent::Generics`].
#[tactic(auto, using(crate::proofs::FormalCode::kind_rules))]
fn formal_kind<'a>(parser: Parser, tokens: &'a [Token]) -> Parsed<'a, FormalKind>
    ensures reads { Shows (Reads (read.formal_kind_by parser.extent) tokens.now) result }
    ensures shorter { IfOk result (λ x. length x.1.now < length tokens.now) }
{
    if !parser.extent.opens(Extent::Generics) {
        return Err(Fault::Syntax(tokens));
    }
    formal_form(parser, tokens)
}

/// `TYPE id IS ( <> ) ; | TYPE id IS RANGE <> ; | id : [IN] name ; | WITH spec ;`
#[tactic(auto, using(crate::proofs::FormalCode::formal_rules))]
fn formal<'a>(parser: Parser, tokens: &'a [Token]) -> Parsed<'a, Formal>
    ensures reads { Shows (Reads (read.formal_by parser.extent) tokens.now) result }
    ensures shorter { IfOk result (λ x. length x.1.now < length tokens.now) }
{
    let Some((token, _)) = tokens.split_first() else {
        return Err(Fault::Syntax(tokens));
    };
    let pos = token.pos;
    let (kind, rest) = formal_kind(parser, tokens)?;
    Ok((Formal { pos, kind }, rest))
}

/// Whether the next token begins a formal.
fn begins_formal(tokens: &[Token]) -> bool
    ensures { result ≡ next_is read.begins_formal tokens.now }
{
    let Some((token, _)) = tokens.split_first() else {
        return false;
    };
    matches!(
        symbol_in(token.lexeme),
        Symbol::Type | Symbol::Identifier | Symbol::With
    )
}

/// `{formal}`, up to the first token that begins none.
#[tactic(auto, using(crate::proofs::FormalCode::formals_rules))]
pub fn formals<'a>(parser: Parser, tokens: &'a [Token]) -> Parsed<'a, Vec<Formal>>
    ensures reads { ShowsAs (λ v. v.items) (Reads (read.formals_by parser.extent) tokens.now) result }
    ensures no_longer { IfOk result (λ x. length x.1.now ≤ length tokens.now) }
{
    let mut rest = tokens;
    let mut formals = Vec::new(parser.alloc);
    'rest: while begins_formal(rest) {
        let (formal, next) = formal(parser, rest)?;
        formals.push(formal)?;
        rest = next;
    }
    Ok((formals, rest))
}
