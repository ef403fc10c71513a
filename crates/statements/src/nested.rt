//! Statements with others in them: if and case statements, loops, blocks, and handlers (Ada RM 2012, 5.3 to
//! 5.6, 11.2).

ghost use Rattle.std.specs.Prelude.{◌≡◌, ◌&&◌, nat_eq, length, ◌∷◌, OnOk};
ghost use Rattle.cov_base.specs.declared.position.Pos.{Pos};
ghost use Rattle.ada_syntax.specs.StatementTree as text;
ghost use Rattle.ada_syntax.specs.StatementView.{statements_of, branches_of, alternatives_of, handlers_of};
ghost use Rattle.ada_syntax.specs.declared.statement.LoopScheme.TheVariants as scheme;
ghost use Rattle.ada_rules.specs.Statements as rules;
ghost use Rattle.ada_rules.specs.Statements.{declarations_in};
ghost use Rattle.statement_parts.specs.Handlers.{may_be_others};
ghost use Rattle.statement_parts.specs.Cases.{arm_in};
ghost use Rattle.statement_parts.specs.Selectors.{selector_in};
ghost use Rattle.statement_parts.specs.Simple.{in_program};
ghost use Rattle.program_walk.specs.Changes.{Grows, UnlessMemory};
ghost use Rattle.program_walk.specs.Walks.{ComesTo, Continues};
ghost use Rattle.statements.specs.Nested.{branch_in};
ghost use Rattle.statements.specs.Made.{some_in_program, all_in_program, branches_there, arms_there, handler_in, handlers_there, frame_there, IsMade, AddsStatement, IsBlockOf, conditional_of, loop_of, branch_at, arm_at, handler_at};

use crate::loops::begin_for;
use crate::simple::{any_exit_at, any_raise_at, any_return_at, assignment_at, call_at, null_at};
use ada_entities::Refusal;
use ada_syntax::{
    Alternative as SourceAlternative, Branch as SourceBranch, Declaration as SourceDeclaration,
    Direction, DiscreteRange, ExceptionChoice, Expr, HandledStatements, Handler as SourceHandler,
    Identifier, LoopScheme, Statement as Source, StatementKind as SourceKind,
};
use ada_tree::{Alternative, Block, Branch, Declaration, Handler, Statement, StatementKind};
use cov_base::{Failure, Pos, Seq};
use declarations::all_declared;
use program_walk::{Context, Walk};
use statement_parts::{
    OthersPlace, Selector, all_caught, all_chosen, case_statement, find_selector,
};
use std::alloc::{AllocError, Global};

/// The statements and the handlers of a body or a block (RM 5.6, 6.3, 11.2).
#[derive(Drop)]
pub struct Frame {
    pub statements: Vec<Statement>,
    pub handlers: Vec<Handler>,
}

/// A statement that was made, as one of a list.
fn made(found: Result<Statement, Failure<Refusal>>) -> Result<Option<Statement>, Failure<Refusal>>
    ensures { IsMade found result }
{
    match found {
        Ok(statement) => Ok(Some(statement)),
        Err(failure) => Err(failure),
    }
}

/// Adds a statement, where there is one.
fn add(made: &mut Vec<Statement>, found: Option<Statement>) -> Result<(), AllocError>
    ensures { OnOk result (AddsStatement made.old.items made.new.items found) }
{
    match found {
        Some(statement) => {
            made.push(statement)?;
            Ok(())
        }
        None => Ok(()),
    }
}

/// The declarations of a block, of which there may be none.
fn declared(declarations: &Option<Seq<SourceDeclaration>>) -> &[SourceDeclaration]
    ensures { result.now ≡ declarations_in declarations.now }
{
    match declarations {
        Some(declarations) => declarations.as_slice(),
        None => &[],
    }
}

/// Whether `others` may stand among the choices of a handler: alone, in the last one.
fn others_place(is_last: bool, named: &[ExceptionChoice]) -> OthersPlace
    ensures { may_be_others result ≡ (is_last && nat_eq (length named.now) 1) }
{
    if is_last && named.len() == 1 {
        OthersPlace::AloneInLast
    } else {
        OthersPlace::Elsewhere
    }
}

/// The block with these declarations, statements and handlers.
fn block_of(declarations: Vec<Declaration>, frame: Frame) -> Block
    ensures { IsBlockOf declarations.items frame result }
{
    Block {
        declarations: Seq::from(declarations),
        statements: frame.statements,
        handlers: frame.handlers,
    }
}

/// A statement (RM 5.1); a pragma makes none. Refused at the rules' own place.
#[tactic(auto, using(crate::proofs::SimpleLaws::parts))]
#[cycle(statements)]
fn stated(
    alloc: Global,
    context: &Context<'_>,
    walk: &mut Walk,
    statement: &Source,
) -> Result<Option<Statement>, Failure<Refusal>>
    ensures comes { ComesTo some_in_program context.now walk.old walk.new
        (λ k env s. (rules.stated env s statement.now).answer) result }
    ensures continues { UnlessMemory (Continues walk.old walk.new) result }
    ensures grown { OnOk result (Grows walk.old.symbols walk.new.symbols) }
{
    let pos = statement.pos;
    match &statement.kind {
        SourceKind::Null => made(null_at(context, walk, pos)),
        SourceKind::Assignment(name, initial) => {
            made(assignment_at(alloc, context, walk, pos, name, initial))
        }
        SourceKind::Call(name) => made(call_at(alloc, context, walk, pos, name)),
        SourceKind::Pragma(_) => Ok(None),
        SourceKind::If(first, others, otherwise) => {
            let others = others.as_slice();
            let otherwise = otherwise.as_slice();
            made(if_at(alloc, context, walk, pos, first, others, otherwise))
        }
        SourceKind::Case(expr, alternatives) => {
            let alternatives = alternatives.as_slice();
            made(case_at(alloc, context, walk, pos, expr, alternatives))
        }
        SourceKind::Loop(scheme, statements) => {
            let statements = statements.as_slice();
            made(loop_at(alloc, context, walk, pos, scheme, statements))
        }
        SourceKind::Exit(condition) => made(any_exit_at(alloc, context, walk, pos, condition)),
        SourceKind::Return(value) => made(any_return_at(alloc, context, walk, pos, value)),
        SourceKind::Raise(exception) => made(any_raise_at(alloc, context, walk, pos, exception)),
        SourceKind::Block(declarations, handled) => {
            made(block_at(alloc, context, walk, declarations, handled))
        }
    }
}

/// Statements in order. Refused at the rules' own place.
#[tactic(auto, using(crate::proofs::SimpleLaws::parts))]
#[cycle(statements)]
pub fn all_stated(
    alloc: Global,
    context: &Context<'_>,
    walk: &mut Walk,
    statements: &[Source],
) -> Result<Vec<Statement>, Failure<Refusal>>
    ensures comes { (p : Pos) → ComesTo all_in_program context.now walk.old walk.new
        (λ k env s. (rules.all_stated env s p (statements_of statements.now)).answer) result }
    ensures continues { UnlessMemory (Continues walk.old walk.new) result }
    ensures grown { OnOk result (Grows walk.old.symbols walk.new.symbols) }
{
    let mut made = Vec::new(alloc);
    for statement in statements {
        let found = stated(alloc, context, walk, statement)?;
        add(&mut made, found)?;
    }
    Ok(made)
}

/// A condition after `if` or `elsif`, and the statements behind its `then`, in an if statement at this place
/// (RM 5.3).
#[tactic(auto, using(crate::proofs::SimpleLaws::parts))]
#[cycle(statements)]
fn branch(
    alloc: Global,
    context: &Context<'_>,
    walk: &mut Walk,
    pos: Pos,
    source: &SourceBranch,
) -> Result<Branch, Failure<Refusal>>
    ensures comes { ComesTo branch_in context.now walk.old walk.new
        (λ k env s. branch_at env s pos source.now.condition source.now.statements.items) result }
    ensures continues { UnlessMemory (Continues walk.old walk.new) result }
    ensures grown { OnOk result (Grows walk.old.symbols walk.new.symbols) }
{
    let site = context.place(&walk.symbols).site;
    let decision = site.decision(alloc, &mut walk.notes.decisions, pos, &source.condition)?;
    let statements = all_stated(alloc, context, walk, source.statements.as_slice())?;
    Ok(Branch {
        decision,
        statements,
    })
}

/// The branches of an if statement at this place, in order.
#[tactic(auto, using(crate::proofs::SimpleLaws::parts))]
#[cycle(statements)]
fn all_branches(
    alloc: Global,
    context: &Context<'_>,
    walk: &mut Walk,
    pos: Pos,
    first: &SourceBranch,
    others: &[SourceBranch],
) -> Result<Vec<Branch>, Failure<Refusal>>
    ensures comes { ComesTo branches_there context.now walk.old walk.new
        (λ k env s. (rules.branched env s pos (branches_of (first.now ∷ others.now))).answer) result }
    ensures continues { UnlessMemory (Continues walk.old walk.new) result }
    ensures grown { OnOk result (Grows walk.old.symbols walk.new.symbols) }
{
    let mut branches = Vec::new(alloc);
    let first = branch(alloc, context, walk, pos, first)?;
    branches.push(first)?;
    for other in others {
        let next = branch(alloc, context, walk, pos, other)?;
        branches.push(next)?;
    }
    Ok(branches)
}

/// An if statement (RM 5.3).
#[tactic(auto, using(crate::proofs::SimpleLaws::parts))]
#[cycle(statements)]
fn if_at(
    alloc: Global,
    context: &Context<'_>,
    walk: &mut Walk,
    pos: Pos,
    first: &SourceBranch,
    others: &[SourceBranch],
    otherwise: &[Source],
) -> Result<Statement, Failure<Refusal>>
    ensures comes { ComesTo in_program context.now walk.old walk.new
        (λ k env s. (rules.stated env s (conditional_of pos first.now others.now otherwise.now)).answer) result }
    ensures continues { UnlessMemory (Continues walk.old walk.new) result }
    ensures grown { OnOk result (Grows walk.old.symbols walk.new.symbols) }
{
    let label = walk.counts.statement(pos)?;
    let branches = all_branches(alloc, context, walk, pos, first, others)?;
    let otherwise = all_stated(alloc, context, walk, otherwise)?;
    Ok(Statement {
        kind: StatementKind::If(label, branches, otherwise),
    })
}

/// An alternative of a case statement (RM 5.4).
#[tactic(auto, using(crate::proofs::SimpleLaws::parts))]
#[cycle(statements)]
fn arm(
    alloc: Global,
    context: &Context<'_>,
    walk: &mut Walk,
    selector: &Selector,
    source: &SourceAlternative,
) -> Result<Alternative, Failure<Refusal>>
    ensures comes { (p : Pos) → ComesTo arm_in context.now walk.old walk.new
        (λ k env s. arm_at env s (selector_in k selector.now) p source.now) result }
    ensures continues { UnlessMemory (Continues walk.old walk.new) result }
    ensures grown { OnOk result (Grows walk.old.symbols walk.new.symbols) }
{
    let place = context.place(&walk.symbols);
    let named = source.choices.as_slice();
    let choices = all_chosen(alloc, &place, &mut walk.notes, selector, named)?;
    let statements = all_stated(alloc, context, walk, source.statements.as_slice())?;
    Ok(Alternative {
        choices,
        statements,
    })
}

/// The alternatives of a case statement, in order.
#[tactic(auto, using(crate::proofs::SimpleLaws::parts))]
#[cycle(statements)]
fn all_arms(
    alloc: Global,
    context: &Context<'_>,
    walk: &mut Walk,
    selector: &Selector,
    alternatives: &[SourceAlternative],
) -> Result<Vec<Alternative>, Failure<Refusal>>
    ensures comes { (p : Pos) → ComesTo arms_there context.now walk.old walk.new (λ k env s.
        (rules.all_arms env s (selector_in k selector.now) p (alternatives_of alternatives.now)).answer) result }
    ensures continues { UnlessMemory (Continues walk.old walk.new) result }
    ensures grown { OnOk result (Grows walk.old.symbols walk.new.symbols) }
{
    let mut arms = Vec::new(alloc);
    for alternative in alternatives {
        let next = arm(alloc, context, walk, selector, alternative)?;
        arms.push(next)?;
    }
    Ok(arms)
}

/// A case statement (RM 5.4).
#[tactic(auto, using(crate::proofs::SimpleLaws::parts))]
#[cycle(statements)]
fn case_at(
    alloc: Global,
    context: &Context<'_>,
    walk: &mut Walk,
    pos: Pos,
    expr: &Expr,
    alternatives: &[SourceAlternative],
) -> Result<Statement, Failure<Refusal>>
    ensures comes { ComesTo in_program context.now walk.old walk.new
        (λ k env s. (rules.stated env s (text.case_of pos expr.now (alternatives_of alternatives.now))).answer) result }
    ensures continues { UnlessMemory (Continues walk.old walk.new) result }
    ensures grown { OnOk result (Grows walk.old.symbols walk.new.symbols) }
{
    let label = walk.counts.statement(pos)?;
    let site = context.place(&walk.symbols).site;
    let selector = find_selector(alloc, &site, &mut walk.notes.decisions, expr)?;
    let arms = all_arms(alloc, context, walk, &selector, alternatives)?;
    let place = context.place(&walk.symbols);
    case_statement(
        alloc,
        &place,
        &mut walk.notes.statics,
        label,
        selector,
        arms,
    )
}

/// A loop without a scheme (RM 5.5).
#[tactic(auto, using(crate::proofs::SimpleLaws::parts))]
#[cycle(statements)]
fn forever_at(
    alloc: Global,
    context: &Context<'_>,
    walk: &mut Walk,
    pos: Pos,
    statements: &[Source],
) -> Result<Statement, Failure<Refusal>>
    ensures comes { ComesTo in_program context.now walk.old walk.new
        (λ k env s. (rules.stated env s (loop_of pos scheme.Forever statements.now)).answer) result }
    ensures continues { UnlessMemory (Continues walk.old walk.new) result }
    ensures grown { OnOk result (Grows walk.old.symbols walk.new.symbols) }
{
    let label = walk.counts.statement(pos)?;
    let statements = all_stated(alloc, &context.in_loop(), walk, statements)?;
    Ok(Statement {
        kind: StatementKind::Loop(label, statements),
    })
}

/// A while loop (RM 5.5).
#[tactic(auto, using(crate::proofs::SimpleLaws::parts))]
#[cycle(statements)]
fn while_at(
    alloc: Global,
    context: &Context<'_>,
    walk: &mut Walk,
    pos: Pos,
    expr: &Expr,
    statements: &[Source],
) -> Result<Statement, Failure<Refusal>>
    ensures comes { ComesTo in_program context.now walk.old walk.new
        (λ k env s. (rules.stated env s (loop_of pos (scheme.While expr.now) statements.now)).answer) result }
    ensures continues { UnlessMemory (Continues walk.old walk.new) result }
    ensures grown { OnOk result (Grows walk.old.symbols walk.new.symbols) }
{
    let label = walk.counts.statement(pos)?;
    let site = context.place(&walk.symbols).site;
    let decision = site.decision(alloc, &mut walk.notes.decisions, pos, expr)?;
    let statements = all_stated(alloc, &context.in_loop(), walk, statements)?;
    Ok(Statement {
        kind: StatementKind::While(label, decision, statements),
    })
}

/// A for loop (RM 5.5): its parameter is gone behind it.
#[tactic(auto, using(crate::proofs::SimpleLaws::parts))]
#[cycle(statements)]
fn for_at(
    alloc: Global,
    context: &Context<'_>,
    walk: &mut Walk,
    pos: Pos,
    name: &Identifier,
    order: Direction,
    range: &DiscreteRange,
    statements: &[Source],
) -> Result<Statement, Failure<Refusal>>
    ensures comes { ComesTo in_program context.now walk.old walk.new
        (λ k env s. (rules.stated env s (loop_of pos (scheme.For name.now order range.now) statements.now)).answer) result }
    ensures continues { UnlessMemory (Continues walk.old walk.new) result }
    ensures grown { OnOk result (Grows walk.old.symbols walk.new.symbols) }
{
    let label = walk.counts.statement(pos)?;
    let begun = begin_for(alloc, context, walk, pos, name, range)?;
    let inside = context.inside().in_loop();
    let statements = all_stated(alloc, &inside, walk, statements)?;
    let _ = walk.symbols.close(alloc);
    Ok(Statement {
        kind: StatementKind::For(label, begun.scheme(order), statements),
    })
}

/// A loop (RM 5.5).
#[tactic(auto, using(crate::proofs::SimpleLaws::parts))]
#[cycle(statements)]
fn loop_at(
    alloc: Global,
    context: &Context<'_>,
    walk: &mut Walk,
    pos: Pos,
    scheme: &LoopScheme,
    statements: &[Source],
) -> Result<Statement, Failure<Refusal>>
    ensures comes { ComesTo in_program context.now walk.old walk.new
        (λ k env s. (rules.stated env s (loop_of pos scheme.now statements.now)).answer) result }
    ensures continues { UnlessMemory (Continues walk.old walk.new) result }
    ensures grown { OnOk result (Grows walk.old.symbols walk.new.symbols) }
{
    match scheme {
        LoopScheme::Forever => forever_at(alloc, context, walk, pos, statements),
        LoopScheme::While(expr) => while_at(alloc, context, walk, pos, expr, statements),
        LoopScheme::For(name, order, range) => {
            for_at(alloc, context, walk, pos, name, *order, range, statements)
        }
    }
}

/// A block (RM 5.6).
#[tactic(auto, using(crate::proofs::SimpleLaws::parts))]
#[cycle(statements)]
fn block_at(
    alloc: Global,
    context: &Context<'_>,
    walk: &mut Walk,
    declarations: &Option<Seq<SourceDeclaration>>,
    handled: &HandledStatements,
) -> Result<Statement, Failure<Refusal>>
    ensures comes { (p : Pos) → ComesTo in_program context.now walk.old walk.new
        (λ k env s. (rules.stated env s (text.block p declarations.now handled.now)).answer) result }
    ensures continues { UnlessMemory (Continues walk.old walk.new) result }
    ensures grown { OnOk result (Grows walk.old.symbols walk.new.symbols) }
{
    let inside = context.inside();
    walk.symbols.open(alloc)?;
    let made = all_declared(alloc, &inside, walk, declared(declarations))?;
    let frame = all_handled(alloc, &inside, walk, handled)?;
    let _ = walk.symbols.close(alloc);
    Ok(Statement {
        kind: StatementKind::Block(block_of(made, frame)),
    })
}

/// A handler, where `others` may stand or not (RM 11.2).
#[tactic(auto, using(crate::proofs::SimpleLaws::parts))]
#[cycle(statements)]
fn handler(
    alloc: Global,
    context: &Context<'_>,
    walk: &mut Walk,
    is_last: bool,
    source: &SourceHandler,
) -> Result<Handler, Failure<Refusal>>
    ensures comes { (p : Pos) → ComesTo handler_in context.now walk.old walk.new
        (λ k env s. handler_at env s is_last p source.now) result }
    ensures continues { UnlessMemory (Continues walk.old walk.new) result }
    ensures grown { OnOk result (Grows walk.old.symbols walk.new.symbols) }
{
    let named = source.choices.as_slice();
    let others = others_place(is_last, named);
    let site = context.place(&walk.symbols).site;
    let choices = all_caught(alloc, &site, &mut walk.notes.decisions, others, named)?;
    let statements = all_stated(
        alloc,
        &context.in_handler(),
        walk,
        source.statements.as_slice(),
    )?;
    Ok(Handler {
        choices,
        statements,
    })
}

/// Handlers in order.
#[tactic(auto, using(crate::proofs::SimpleLaws::parts))]
#[cycle(statements)]
fn all_handlers(
    alloc: Global,
    context: &Context<'_>,
    walk: &mut Walk,
    handlers: &[SourceHandler],
) -> Result<Vec<Handler>, Failure<Refusal>>
    ensures comes { (p : Pos) → ComesTo handlers_there context.now walk.old walk.new
        (λ k env s. (rules.all_handlers env s p (handlers_of handlers.now)).answer) result }
    ensures continues { UnlessMemory (Continues walk.old walk.new) result }
    ensures grown { OnOk result (Grows walk.old.symbols walk.new.symbols) }
{
    let mut made = Vec::new(alloc);
    for (place, source) in handlers.iter().enumerate() {
        let is_last = place + 1 == handlers.len();
        let next = handler(alloc, context, walk, is_last, source)?;
        made.push(next)?;
    }
    Ok(made)
}

/// The statements and the handlers of a body or a block. Refused at the rules' own place.
#[tactic(auto, using(crate::proofs::SimpleLaws::parts))]
#[cycle(statements)]
pub fn all_handled(
    alloc: Global,
    context: &Context<'_>,
    walk: &mut Walk,
    handled: &HandledStatements,
) -> Result<Frame, Failure<Refusal>>
    ensures comes { (p : Pos) → ComesTo frame_there context.now walk.old walk.new
        (λ k env s. (rules.all_handled env s p handled.now).answer) result }
    ensures continues { UnlessMemory (Continues walk.old walk.new) result }
    ensures grown { OnOk result (Grows walk.old.symbols walk.new.symbols) }
{
    let statements = all_stated(alloc, context, walk, handled.statements.as_slice())?;
    let handlers = all_handlers(alloc, context, walk, handled.handlers.as_slice())?;
    Ok(Frame {
        statements,
        handlers,
    })
}
