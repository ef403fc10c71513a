//! Statements with statements in them (Ada RM 2012, 5.3 to 5.6).

ghost use Rattle.std.specs.Prelude.{◌≡◌, ◌<◌, ◌≤◌, length, Option, IfOk};
ghost use Rattle.ada_syntax.specs.StatementView.{branches_of, alternatives_of};
ghost use Rattle.expression_parser.specs.Shows.{Shows, ShowsAs, Reads, next_is};
ghost use Rattle.ada_parser.specs.StatementDepth as at;
ghost use Rattle.ada_parser.specs.SimpleReading as read;
ghost use Rattle.ada_parser.specs.Parts.{branch_parts};
ghost use Rattle.ada_parser.specs.Beginnings.{extent_of, ShowsBeginning};
ghost use Rattle.ada_parser.specs.Bodies.{ReadsIfRest, ReadsCaseArms, ReadsLoopBody};

use crate::arms::alternatives;
use crate::heads::{declarations_to_begin, expr_before};
use crate::simple::direction;
use crate::statements::{handled, statements};
use crate::words::{closing, end};
use ada_lexer::Token;
use ada_syntax::{Alternative, Branch, Declaration, LoopScheme, Statement, StatementKind};
use cov_base::{Pos, Seq};
use declaration_parser::{paired, range};
use expression_parser::{Extent, Fault, Parsed, Parser, Symbol, behind, symbol_in, word};

/// `expr THEN stmts`
#[cycle(statement)]
fn branch<'a>(parser: Parser, tokens: &'a [Token]) -> Parsed<'a, Branch>
    ensures reads { ShowsAs branch_parts (Reads (at.at_branch parser.extent) tokens.now) result }
    ensures shorter { IfOk result (λ x. length x.1.now < length tokens.now) }
{
    let (expr, rest) = expr_before(parser, Symbol::Then, tokens)?;
    let ((condition, statements), rest) = paired(expr, statements(parser, rest))?;
    let branch = Branch {
        condition,
        statements,
    };
    Ok((branch, rest))
}

/// `{ELSIF expr THEN stmts}`
#[cycle(statement)]
#[tactic(auto, using(crate::proofs::CompoundCode::branches_rules))]
fn branches<'a>(parser: Parser, tokens: &'a [Token]) -> Parsed<'a, Vec<Branch>>
    ensures reads { ShowsAs (λ v. branches_of v.items) (Reads (at.at_branches parser.extent) tokens.now) result }
    ensures no_longer { IfOk result (λ x. length x.1.now ≤ length tokens.now) }
{
    let mut rest = tokens;
    let mut branches = Vec::new(parser.alloc);
    while let Some(after) = behind(Symbol::Elsif, rest) {
        let (branch, next) = branch(parser, after)?;
        branches.push(branch)?;
        rest = next;
    }
    Ok((branches, rest))
}

/// `[ELSE stmts]`
#[cycle(statement)]
fn else_part<'a>(parser: Parser, tokens: &'a [Token]) -> Parsed<'a, Vec<Statement>>
    ensures reads { ShowsAs (λ v. v.items) (Reads (at.at_else parser.extent) tokens.now) result }
    ensures no_longer { IfOk result (λ x. length x.1.now ≤ length tokens.now) }
{
    let Some(after) = behind(Symbol::Else, tokens) else {
        return Ok((Vec::new(parser.alloc), tokens));
    };
    statements(parser, after)
}

/// `{ELSIF expr THEN stmts} [ELSE stmts] END IF ;` behind a first branch
#[cycle(statement)]
fn if_rest<'a>(parser: Parser, tokens: &'a [Token]) -> Parsed<'a, (Vec<Branch>, Vec<Statement>)>
    ensures reads { ReadsIfRest (λ v. (branches_of v.0.items, v.1.items)) parser.extent tokens.now result }
    ensures shorter { IfOk result (λ x. length x.1.now < length tokens.now) }
{
    let (others, rest) = branches(parser, tokens)?;
    let (otherwise, rest) = else_part(parser, rest)?;
    let rest = closing(Symbol::If, rest)?;
    Ok(((others, otherwise), rest))
}

/// `expr THEN stmts {ELSIF expr THEN stmts} [ELSE stmts] END IF ;` behind `IF`
#[cycle(statement)]
fn if_statement<'a>(parser: Parser, pos: Pos, tokens: &'a [Token]) -> Parsed<'a, Statement>
    ensures reads { Shows (Reads (at.at_if parser.extent pos) tokens.now) result }
    ensures shorter { IfOk result (λ x. length x.1.now < length tokens.now) }
{
    let (start, rest) = branch(parser, tokens)?;
    let ((first, (others, otherwise)), rest) = paired(start, if_rest(parser, rest))?;
    let kind = StatementKind::If(first, others, otherwise);
    Ok((Statement { pos, kind }, rest))
}

/// `alt {alt} END CASE ;`
#[cycle(statement)]
fn case_arms<'a>(parser: Parser, tokens: &'a [Token]) -> Parsed<'a, Vec<Alternative>>
    ensures reads { ReadsCaseArms (λ v. alternatives_of v.items) parser.extent tokens.now result }
    ensures shorter { IfOk result (λ x. length x.1.now < length tokens.now) }
{
    let (alternatives, rest) = alternatives(parser, tokens)?;
    let rest = closing(Symbol::Case, rest)?;
    Ok((alternatives, rest))
}

/// `expr IS alt {alt} END CASE ;` behind `CASE`
#[cycle(statement)]
fn case_statement<'a>(parser: Parser, pos: Pos, tokens: &'a [Token]) -> Parsed<'a, Statement>
    ensures reads { Shows (Reads (at.at_case parser.extent pos) tokens.now) result }
    ensures shorter { IfOk result (λ x. length x.1.now < length tokens.now) }
{
    let (expr, rest) = expr_before(parser, Symbol::Is, tokens)?;
    let ((selector, alternatives), rest) = paired(expr, case_arms(parser, rest))?;
    let kind = StatementKind::Case(selector, alternatives);
    Ok((Statement { pos, kind }, rest))
}

/// `LOOP stmts END LOOP ;`
#[cycle(statement)]
fn loop_body<'a>(parser: Parser, tokens: &'a [Token]) -> Parsed<'a, Vec<Statement>>
    ensures reads { ReadsLoopBody (λ v. v.items) parser.extent tokens.now result }
    ensures shorter { IfOk result (λ x. length x.1.now < length tokens.now) }
{
    let rest = word(Symbol::Loop, tokens)?;
    let (statements, rest) = statements(parser, rest)?;
    let rest = closing(Symbol::Loop, rest)?;
    Ok((statements, rest))
}

/// `LOOP stmts END LOOP ;` of the loop with this scheme
#[cycle(statement)]
fn loop_rest<'a>(
    parser: Parser,
    pos: Pos,
    scheme: LoopScheme,
    tokens: &'a [Token],
) -> Parsed<'a, Statement>
    ensures reads { Shows (Reads (at.at_loop parser.extent pos scheme) tokens.now) result }
    ensures shorter { IfOk result (λ x. length x.1.now < length tokens.now) }
{
    let ((scheme, statements), rest) = paired(scheme, loop_body(parser, tokens))?;
    let kind = StatementKind::Loop(scheme, statements);
    Ok((Statement { pos, kind }, rest))
}

/// `expr LOOP stmts END LOOP ;` behind `WHILE`
#[cycle(statement)]
fn while_loop<'a>(parser: Parser, pos: Pos, tokens: &'a [Token]) -> Parsed<'a, Statement>
    ensures reads { Shows (Reads (at.at_while parser.extent pos) tokens.now) result }
    ensures shorter { IfOk result (λ x. length x.1.now < length tokens.now) }
{
    let (condition, rest) = parser.expr(tokens)?;
    loop_rest(parser, pos, LoopScheme::While(condition), rest)
}

/// `id IN [REVERSE] range LOOP stmts END LOOP ;` behind `FOR`
#[cycle(statement)]
fn for_loop<'a>(parser: Parser, pos: Pos, tokens: &'a [Token]) -> Parsed<'a, Statement>
    ensures reads { Shows (Reads (at.at_for parser.extent pos) tokens.now) result }
    ensures shorter { IfOk result (λ x. length x.1.now < length tokens.now) }
{
    let (parameter, rest) = parser.identifier(tokens)?;
    let rest = word(Symbol::In, rest)?;
    let (direction, rest) = direction(rest);
    let (values, rest) = range(parser, rest)?;
    let scheme = LoopScheme::For(parameter, direction, values);
    loop_rest(parser, pos, scheme, rest)
}

/// `stmts [handlers] END ;` behind `BEGIN`
#[cycle(statement)]
fn block<'a>(
    parser: Parser,
    pos: Pos,
    declarations: Option<Seq<Declaration>>,
    tokens: &'a [Token],
) -> Parsed<'a, Statement>
    ensures reads { Shows (Reads (at.at_block parser.extent pos declarations) tokens.now) result }
    ensures shorter { IfOk result (λ x. length x.1.now < length tokens.now) }
{
    let (handled, rest) = handled(parser, tokens)?;
    let rest = end(rest)?;
    let kind = StatementKind::Block(declarations, handled);
    Ok((Statement { pos, kind }, rest))
}

/// `{ldecl} BEGIN stmts [handlers] END ;` behind `DECLARE`
#[cycle(statement)]
fn declaring_block<'a>(parser: Parser, pos: Pos, tokens: &'a [Token]) -> Parsed<'a, Statement>
    ensures reads { Shows (Reads (at.at_declaring parser.extent pos) tokens.now) result }
    ensures shorter { IfOk result (λ x. length x.1.now < length tokens.now) }
{
    let (declarations, rest) = declarations_to_begin(parser, tokens)?;
    block(parser, pos, Some(Seq::from(declarations)), rest)
}

/// The extent with which a statement with statements in it comes that begins with this word.
fn extent_of(word: Symbol) -> Option<Extent>
    ensures { result ≡ extent_of word }
{
    match word {
        Symbol::Case | Symbol::For => Some(Extent::Types),
        Symbol::If | Symbol::Loop | Symbol::While | Symbol::Begin | Symbol::Declare => {
            Some(Extent::Decisions)
        }
        _ => None,
    }
}

/// The word by which a statement with statements in it begins, and its place.
fn beginning<'a>(parser: Parser, tokens: &'a [Token]) -> Parsed<'a, (Symbol, Pos)>
    ensures { ShowsBeginning parser.extent tokens.now result }
{
    let Some((token, rest)) = tokens.split_first() else {
        return Err(Fault::Syntax(tokens));
    };
    let word = symbol_in(token.lexeme);
    let Some(needed) = extent_of(word) else {
        return Err(Fault::Syntax(tokens));
    };
    parser.needs(needed, tokens)?;
    Ok(((word, token.pos), rest))
}

/// Whether the next token begins a statement with statements in it.
pub fn begins_compound(tokens: &[Token]) -> bool
    ensures { result ≡ next_is read.begins_compound tokens.now }
{
    let Some((token, _)) = tokens.split_first() else {
        return false;
    };
    matches!(
        symbol_in(token.lexeme),
        Symbol::If
            | Symbol::Case
            | Symbol::Loop
            | Symbol::While
            | Symbol::For
            | Symbol::Begin
            | Symbol::Declare
    )
}

/// A statement with statements in it. `case` and `for` come with [`Extent::Types`], the others with
/// [`Extent::Decisions`].
#[cycle(statement)]
pub fn compound<'a>(parser: Parser, tokens: &'a [Token]) -> Parsed<'a, Statement>
    ensures reads { Shows (Reads (at.at_compound parser.extent) tokens.now) result }
    ensures shorter { IfOk result (λ x. length x.1.now < length tokens.now) }
{
    let ((word, pos), rest) = beginning(parser, tokens)?;
    match word {
        Symbol::If => if_statement(parser, pos, rest),
        Symbol::Case => case_statement(parser, pos, rest),
        Symbol::Loop => loop_rest(parser, pos, LoopScheme::Forever, tokens),
        Symbol::While => while_loop(parser, pos, rest),
        Symbol::For => for_loop(parser, pos, rest),
        Symbol::Begin => block(parser, pos, None, rest),
        Symbol::Declare => declaring_block(parser, pos, rest),
        _ => Err(Fault::Syntax(tokens)),
    }
}
