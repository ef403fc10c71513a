//! Code of statements, of blocks and of handlers (Ada RM 2012, 5.1 to 5.6, 11.2 to 11.4).

ghost use Rattle.std.specs.Prelude.{◌≡◌, ◌+◌, OnOk};
ghost use Rattle.ada_meaning.specs.Tree as tree;
ghost use Rattle.ada_tree.specs.View.{alternatives_of, branches_of, handlers_of, is_filled, is_reversed, label_of, statement_at, statements_of, turns_of};
ghost use Rattle.kernel_ir.specs.Sequence.{joined};
ghost use Rattle.kernel_ir.specs.Tree.{exit, forever};
ghost use Rattle.kernel_ir.specs.declared.simple.Simple.TheVariants as op;
ghost use Rattle.statement_code.specs.Flows.{range_code};
ghost use Rattle.statement_code.specs.Statements.{slot_of};
ghost use Rattle.statement_code.specs.Values.{one, single};
ghost use Rattle.lower.specs.Choosing.{bounds_for, decided_for};
ghost use Rattle.lower.specs.Context.{home_for, home_of};
ghost use Rattle.lower.specs.Stated.{all_for, alternatives_for, branches_for, exchange_by, frame_for, handlers_for, held_for, own_start_for, range_by, stated_for, step_of, turn_end};

use crate::choosing::{put_bounds, put_choices, put_compared, put_decided, put_exception_choices};
use crate::context::{BodyContext, Home};
use crate::procedures::put_procedure;
use crate::sets::put_assignment;
use crate::simple::{leaving, put_declarations, put_exit_when, put_raise, put_result, put_start};
use crate::value::put_value;
use ada_tree::{
    Alternative, Block, Branch, Decision, Direction, ForScheme, Handler, Object, Statement,
    StatementKind,
};
use cov_base::{number_after, number_behind};
use kernel_ir::{Code, Op, Relation, Simple, Slot};
use std::alloc::{AllocError, Global};

/// The slot in which an object's first word stands, in its frame.
fn slot_of(home: Home) -> Slot
    ensures { result ≡ slot_of (home_of home) }
{
    match home {
        Home::Frame(slot) | Home::Library(slot) => slot,
    }
}

/// The next value of a loop's parameter, in a slot.
fn next_value(slot: Slot, direction: Direction) -> Simple
    ensures { result ≡ op.Advance slot slot (step_of direction) }
{
    match direction {
        Direction::Rising => Simple::Advance {
            to: slot,
            from: slot,
            by: 1,
        },
        Direction::Falling => Simple::Advance {
            to: slot,
            from: slot,
            by: -1,
        },
    }
}

/// Puts the end of a turn behind the code of its statements: it leaves the loop behind the last value, and
/// else goes on to the next one.
fn put_turn_end(
    alloc: Global,
    code: &mut Code,
    bounds: Slot,
    free: Slot,
    direction: Direction,
) -> Result<(), AllocError>
    ensures { OnOk result (code.new ≡ joined code.old (turn_end bounds free (step_of direction))) }
{
    let last = number_behind(bounds)?;
    put_compared(code, free, Relation::Equal, bounds, last)?;
    let leaves = leaving(alloc)?;
    let mut next = Code::new(alloc);
    next.push_simple(next_value(bounds, direction))?;
    code.push(Op::Choose {
        slot: free,
        if_true: leaves,
        if_false: next,
    })
}

/// Puts a loop over a range behind code, whose bounds two slots hold, by the code of one turn: none for a
/// null range (RM 5.5).
fn put_range(
    alloc: Global,
    code: &mut Code,
    bounds: Slot,
    free: Slot,
    direction: Direction,
    turn: Code,
) -> Result<(), AllocError>
    ensures { OnOk result (code.new ≡ joined code.old (range_by bounds free (is_reversed direction) turn)) }
{
    let last = number_behind(bounds)?;
    put_compared(code, free, Relation::AtMost, bounds, last)?;
    let mut turns = Code::new(alloc);
    put_exchanged(&mut turns, bounds, last, free, direction)?;
    turns.push(Op::ForLoop(turn))?;
    code.push(Op::Choose {
        slot: free,
        if_true: turns,
        if_false: Code::new(alloc),
    })
}

/// Puts behind code what exchanges the bounds of a reverse loop.
fn put_exchanged(
    code: &mut Code,
    first: Slot,
    last: Slot,
    free: Slot,
    direction: Direction,
) -> Result<(), AllocError>
    ensures { OnOk result (code.new ≡ joined code.old (exchange_by first last free (is_reversed direction))) }
{
    if let Direction::Rising = direction {
        return Ok(());
    }
    code.push_simple(Simple::Move {
        to: free,
        from: first,
    })?;
    code.push_simple(Simple::Move {
        to: first,
        from: last,
    })?;
    code.push_simple(Simple::Move {
        to: last,
        from: free,
    })
}

/// Puts the end of a case statement behind code: no alternative has fitted.
fn put_unfitted(code: &mut Code) -> Result<(), AllocError>
    ensures { OnOk result (code.new ≡ joined code.old (one (op.Raise 1))) }
{
    code.push_simple(Simple::Raise { exception: 1 })
}

/// Whether a block has handlers.
fn has_handlers(handlers: &[Handler]) -> bool
    ensures { result ≡ is_filled handlers.now }
{
    !handlers.is_empty()
}

/// Puts a statement behind code. The slots from one on are free for it; `taken` is the slot of the
/// exception that the innermost handler took.
#[cycle(statements)]
fn put_stated(
    alloc: Global,
    context: &BodyContext,
    code: &mut Code,
    slot: Slot,
    taken: Slot,
    statement: &Statement,
) -> Result<(), AllocError>
    ensures { OnOk result (code.new ≡ joined code.old (stated_for context.now slot taken statement.now)) }
{
    put_own_start(context, code, &statement.kind)?;
    put_held(alloc, context, code, slot, taken, &statement.kind)
}

/// Puts the start of a statement behind code. A block has none of its own.
fn put_own_start(
    context: &BodyContext,
    code: &mut Code,
    kind: &StatementKind,
) -> Result<(), AllocError>
    ensures { OnOk result (code.new ≡ joined code.old (own_start_for context.now (statement_at kind.now))) }
{
    match kind {
        StatementKind::Null(label)
        | StatementKind::Assignment(label, ..)
        | StatementKind::PartAssignment(label, ..)
        | StatementKind::Call(label, ..)
        | StatementKind::If(label, ..)
        | StatementKind::Case(label, ..)
        | StatementKind::Loop(label, _)
        | StatementKind::While(label, ..)
        | StatementKind::For(label, ..)
        | StatementKind::Exit(label)
        | StatementKind::ExitWhen(label, _)
        | StatementKind::Return(label)
        | StatementKind::ReturnValue(label, ..)
        | StatementKind::Raise(label, _)
        | StatementKind::RaiseAgain(label) => put_start(context, code, *label),
        StatementKind::Block(_) => Ok(()),
    }
}

/// Puts behind code what a statement does when it has started.
#[cycle(statements)]
fn put_held(
    alloc: Global,
    context: &BodyContext,
    code: &mut Code,
    slot: Slot,
    taken: Slot,
    kind: &StatementKind,
) -> Result<(), AllocError>
    ensures { OnOk result (code.new
        ≡ joined code.old (held_for context.now slot taken (statement_at kind.now))) }
{
    match kind {
        StatementKind::Null(_) => Ok(()),
        StatementKind::Assignment(_, object, value) => {
            put_assignment(alloc, context, code, slot, *object, &[], value)
        }
        StatementKind::PartAssignment(_, object, selectors, value) => {
            put_assignment(alloc, context, code, slot, *object, selectors, value)
        }
        StatementKind::Call(_, callee, actuals) => {
            let target = context.target(*callee);
            put_procedure(alloc, context, code, slot, target, actuals.as_slice())
        }
        StatementKind::If(_, branches, otherwise) => {
            put_branches(alloc, context, code, slot, taken, branches, otherwise)
        }
        StatementKind::Case(_, expr, alternatives) => {
            put_value(alloc, context, code, slot, expr)?;
            put_alternatives(alloc, context, code, slot, taken, alternatives)
        }
        StatementKind::Loop(_, statements) => {
            put_loop(alloc, context, code, slot, taken, statements)
        }
        StatementKind::While(_, decision, statements) => {
            put_while(alloc, context, code, slot, taken, decision, statements)
        }
        StatementKind::For(_, scheme, statements) => {
            put_for(alloc, context, code, slot, taken, scheme, statements)
        }
        StatementKind::Exit(_) => code.push(Op::Exit),
        StatementKind::ExitWhen(_, decision) => {
            put_exit_when(alloc, context, code, slot, decision)
        }
        StatementKind::Return(_) => code.push(Op::Returns),
        StatementKind::ReturnValue(_, range, expr) => {
            put_result(alloc, context, code, slot, *range, expr)
        }
        StatementKind::Raise(_, name) => put_raise(context, code, *name),
        StatementKind::RaiseAgain(_) => code.push_simple(Simple::RaiseSlot { slot: taken }),
        StatementKind::Block(block) => put_frame(alloc, context, code, slot, taken, block),
    }
}

/// Puts statements behind code, in order.
#[cycle(statements)]
fn put_all(
    alloc: Global,
    context: &BodyContext,
    code: &mut Code,
    slot: Slot,
    taken: Slot,
    statements: &[Statement],
) -> Result<(), AllocError>
    ensures { OnOk result (code.new
        ≡ joined code.old (all_for context.now slot taken (statements_of statements.now))) }
{
    for statement in statements {
        put_stated(alloc, context, code, slot, taken, statement)?;
    }
    Ok(())
}

/// Puts the branches of an if statement behind code, with its else part (RM 5.3).
#[cycle(statements)]
fn put_branches(
    alloc: Global,
    context: &BodyContext,
    code: &mut Code,
    slot: Slot,
    taken: Slot,
    branches: &[Branch],
    otherwise: &[Statement],
) -> Result<(), AllocError>
    ensures { OnOk result (code.new ≡ joined code.old (branches_for context.now slot taken
        (branches_of branches.now (statements_of otherwise.now)))) }
{
    let Some((branch, others)) = branches.split_first() else {
        return put_all(alloc, context, code, slot, taken, otherwise);
    };
    let mut if_true = Code::new(alloc);
    put_all(
        alloc,
        context,
        &mut if_true,
        slot,
        taken,
        &branch.statements,
    )?;
    let mut if_false = Code::new(alloc);
    put_branches(
        alloc,
        context,
        &mut if_false,
        slot,
        taken,
        others,
        otherwise,
    )?;
    put_decided(
        alloc,
        context,
        code,
        slot,
        &branch.decision,
        if_true,
        if_false,
    )
}

/// Puts the alternatives of a case statement behind code, whose value a slot holds (RM 5.4).
#[cycle(statements)]
fn put_alternatives(
    alloc: Global,
    context: &BodyContext,
    code: &mut Code,
    slot: Slot,
    taken: Slot,
    alternatives: &[Alternative],
) -> Result<(), AllocError>
    ensures { OnOk result (code.new
        ≡ joined code.old (alternatives_for context.now slot taken (alternatives_of alternatives.now))) }
{
    let Some((alternative, others)) = alternatives.split_first() else {
        return put_unfitted(code);
    };
    let fits = number_behind(slot)?;
    put_choices(alloc, context, code, slot, alternative.choices.as_slice())?;
    let mut if_true = Code::new(alloc);
    put_all(
        alloc,
        context,
        &mut if_true,
        slot,
        taken,
        &alternative.statements,
    )?;
    let mut if_false = Code::new(alloc);
    put_alternatives(alloc, context, &mut if_false, slot, taken, others)?;
    code.push(Op::Choose {
        slot: fits,
        if_true,
        if_false,
    })
}

/// Puts a loop behind code that only `exit` leaves (RM 5.5).
#[cycle(statements)]
fn put_loop(
    alloc: Global,
    context: &BodyContext,
    code: &mut Code,
    slot: Slot,
    taken: Slot,
    statements: &[Statement],
) -> Result<(), AllocError>
    ensures { OnOk result (code.new ≡ joined code.old (single (forever
        (all_for context.now slot taken (statements_of statements.now))))) }
{
    let mut turn = Code::new(alloc);
    put_all(alloc, context, &mut turn, slot, taken, statements)?;
    code.push(Op::Forever(turn))
}

/// Puts a while loop behind code (RM 5.5).
#[cycle(statements)]
fn put_while(
    alloc: Global,
    context: &BodyContext,
    code: &mut Code,
    slot: Slot,
    taken: Slot,
    decision: &Decision,
    statements: &[Statement],
) -> Result<(), AllocError>
    ensures { OnOk result (code.new ≡ joined code.old (single (forever (decided_for context.now slot
        (label_of decision.now.label) decision.now.test
        (all_for context.now slot taken (statements_of statements.now)) (single exit))))) }
{
    let mut stated = Code::new(alloc);
    put_all(alloc, context, &mut stated, slot, taken, statements)?;
    let leaves = leaving(alloc)?;
    let mut turn = Code::new(alloc);
    put_decided(alloc, context, &mut turn, slot, decision, stated, leaves)?;
    code.push(Op::Forever(turn))
}

/// Puts a for loop behind code: its bounds are worked out once, low and then high (RM 5.5).
#[cycle(statements)]
fn put_for(
    alloc: Global,
    context: &BodyContext,
    code: &mut Code,
    slot: Slot,
    taken: Slot,
    scheme: &ForScheme,
    statements: &[Statement],
) -> Result<(), AllocError>
    ensures { OnOk result (code.new ≡ joined code.old (joined (bounds_for context.now slot (turns_of scheme.now.values))
        (range_code slot (slot + 2) (slot_of (home_for context.now (tree.local_object scheme.now.parameter)))
        (is_reversed scheme.now.direction)
        (all_for context.now (slot + 2) taken (statements_of statements.now))))) }
{
    put_bounds(alloc, context, code, slot, &scheme.values)?;
    let free = number_after(slot, 2)?;
    let mut turn = Code::new(alloc);
    turn.push_simple(Simple::Move {
        to: slot_of(context.home(Object::Local(scheme.parameter))),
        from: slot,
    })?;
    put_all(alloc, context, &mut turn, free, taken, statements)?;
    put_turn_end(alloc, &mut turn, slot, free, scheme.direction)?;
    put_range(alloc, code, slot, free, scheme.direction, turn)
}

/// Puts the declarations, statements and handlers of a block or of a body behind code (RM 5.6, 6.3,
/// 11.2). Handlers serve for the statements alone.
#[cycle(statements)]
pub(crate) fn put_frame(
    alloc: Global,
    context: &BodyContext,
    code: &mut Code,
    slot: Slot,
    taken: Slot,
    block: &Block,
) -> Result<(), AllocError>
    ensures { OnOk result (code.new ≡ joined code.old (frame_for context.now slot taken block.now)) }
{
    put_declarations(alloc, context, code, slot, block.declarations.as_slice())?;
    if !has_handlers(&block.handlers) {
        return put_all(alloc, context, code, slot, taken, &block.statements);
    }
    let mut body = Code::new(alloc);
    put_all(alloc, context, &mut body, slot, taken, &block.statements)?;
    let mut handler = Code::new(alloc);
    put_handlers(alloc, context, &mut handler, slot, &block.handlers)?;
    code.push(Op::Catch {
        body,
        slot,
        handler,
    })
}

/// Puts handlers behind code, where a slot holds the number of the exception: one for which there is no
/// handler is raised again (RM 11.4).
#[cycle(statements)]
fn put_handlers(
    alloc: Global,
    context: &BodyContext,
    code: &mut Code,
    slot: Slot,
    handlers: &[Handler],
) -> Result<(), AllocError>
    ensures { OnOk result (code.new ≡ joined code.old (handlers_for context.now slot (handlers_of handlers.now))) }
{
    let Some((handler, others)) = handlers.split_first() else {
        return code.push_simple(Simple::RaiseSlot { slot });
    };
    put_exception_choices(alloc, context, code, slot, handler.choices.as_slice())?;
    let behind = number_behind(slot)?;
    let mut if_true = Code::new(alloc);
    put_all(
        alloc,
        context,
        &mut if_true,
        behind,
        slot,
        &handler.statements,
    )?;
    let mut if_false = Code::new(alloc);
    put_handlers(alloc, context, &mut if_false, slot, others)?;
    code.push(Op::Choose {
        slot: behind,
        if_true,
        if_false,
    })
}
