//! The pieces of a kernel.

ghost use Rattle.std.specs.Prelude.{◌≡◌, ◌≤◌, ◌+◌, ◌*◌, ◌∷◌, ◌++◌, IfOk, OnOk};
ghost use Rattle.assembler.specs.Placed.{words_in};
ghost use Rattle.assembler.specs.declared.piece.Mark.TheVariants as mark;
ghost use Rattle.kernel_code.specs.Line.{items_of, mark_of, marks_from};
ghost use Rattle.kernel_code.specs.Marked.{piece_of};
ghost use Rattle.kernel_code.specs.Code.{body_lines, start_lines};
ghost use Rattle.kernel_code.specs.FillCode.{layout_lines};
ghost use Rattle.kernel_code.specs.Pieces.{layout_pieces, kernel_pieces};
ghost use Rattle.kernel_code.specs.View.{said_of, lines_of};
ghost use Rattle.kernel_ir.specs.Limits.{kernel_instructions};
ghost use Rattle.kernel_code.specs.Frame.{sizes_of};
ghost use Rattle.kernel_code.specs.Set.{setting_of};
ghost use Rattle.codegen_rv32.specs.Set.{body_pieces};

use crate::fills::put_layout;
use crate::parts::put_start;
use crate::structure::put_body;
use assembler::{Item, Label, Mark, Piece};
use cov_base::{CondIx, DecId, InstId, Seq, number_behind, numbered};
use kernel_code::{Emitter, Frame, Line, Said, sizes_of};
use kernel_ir::{Body, Code, Kernel, Layout};
use line_table::RoleKind;
use std::alloc::{AllocError, Global};

/// The pieces of a kernel: of the start, of the bodies and of the layouts, in order. Their text takes at
/// most 4 bytes for each instruction of the kernel's size. There is no memory for a piece of 2 ^ 32 lines.
pub fn generate(alloc: Global, kernel: &Kernel) -> Result<Vec<Piece>, AllocError>
    ensures pieces { IfOk result (λ pieces. pieces.items ≡ kernel_pieces kernel.now) }
    ensures bytes { IfOk result (λ pieces. 4 * words_in pieces.items ≤ 4 * kernel_instructions kernel.now) }
{
    let sizes = sizes_of(alloc, kernel.layouts.as_slice())?;
    pieces_of(alloc, kernel, sizes.as_slice())
}

/// The pieces of a kernel whose layouts have these sizes.
fn pieces_of(alloc: Global, kernel: &Kernel, sizes: &[u64]) -> Result<Vec<Piece>, AllocError>
    requires { sizes.now ≡ sizes_of kernel.now.layouts }
    ensures { IfOk result (λ pieces. pieces.items ≡ kernel_pieces kernel.now) }
{
    let count = numbered(kernel.bodies.len())?;
    let frame = Frame {
        width: 0,
        exceptions: kernel.exceptions,
        layouts: kernel.layouts.as_slice(),
        sizes,
        first_layout: number_behind(count)?,
    };
    let mut pieces = Vec::new(alloc);
    put_pieces(alloc, &mut pieces, &frame, kernel)?;
    Ok(pieces)
}

/// Puts the pieces of the start, of the bodies and of the layouts.
fn put_pieces(
    alloc: Global,
    pieces: &mut Vec<Piece>,
    frame: &Frame<'_>,
    kernel: &Kernel,
) -> Result<(), AllocError>
    ensures { OnOk result (pieces.new.items ≡ pieces.old.items ++ (piece_of (start_lines kernel.now.main)
        ∷ (body_pieces (setting_of frame.now) kernel.now.bodies ++ layout_pieces frame.now.first_layout 0 kernel.now.layouts))) }
{
    let start = start_piece(alloc, kernel.main)?;
    pieces.push(start)?;
    put_bodies(alloc, pieces, frame, kernel.bodies.as_slice())?;
    put_layouts(alloc, pieces, frame.first_layout, kernel.layouts.as_slice())
}

/// Puts the pieces of bodies behind the others.
fn put_bodies(
    alloc: Global,
    pieces: &mut Vec<Piece>,
    frame: &Frame<'_>,
    bodies: &[Body],
) -> Result<(), AllocError>
    ensures { OnOk result (pieces.new.items ≡ pieces.old.items ++ body_pieces (setting_of frame.now) bodies.now) }
{
    for body in bodies {
        let own = Frame {
            width: body.width,
            exceptions: frame.exceptions,
            layouts: frame.layouts,
            sizes: frame.sizes,
            first_layout: frame.first_layout,
        };
        let piece = body_piece(alloc, &own, &body.code)?;
        pieces.push(piece)?;
    }
    Ok(())
}

/// Puts the pieces of layouts behind the others.
fn put_layouts(
    alloc: Global,
    pieces: &mut Vec<Piece>,
    first: u32,
    layouts: &[Layout],
) -> Result<(), AllocError>
    ensures { OnOk result (pieces.new.items ≡ pieces.old.items ++ layout_pieces first 0 layouts.now) }
{
    let mut number: u32 = 0;
    for layout in layouts {
        let piece = layout_piece(alloc, first, number, layout)?;
        pieces.push(piece)?;
        number = number_behind(number)?;
    }
    Ok(())
}

/// The piece of the start.
fn start_piece(alloc: Global, main: u32) -> Result<Piece, AllocError>
    ensures { IfOk result (λ piece. piece ≡ piece_of (start_lines main)) }
{
    let mut emitter = Emitter::new(alloc);
    put_start(&mut emitter, main)?;
    piece_of(alloc, &emitter)
}

/// The piece of a body.
fn body_piece(alloc: Global, frame: &Frame<'_>, code: &Code) -> Result<Piece, AllocError>
    ensures { IfOk result (λ piece. piece ≡ piece_of (body_lines (setting_of frame.now) code.now)) }
{
    let mut emitter = Emitter::new(alloc);
    put_body(&mut emitter, frame, code)?;
    piece_of(alloc, &emitter)
}

/// The piece of a layout.
fn layout_piece(
    alloc: Global,
    first: u32,
    number: u32,
    layout: &Layout,
) -> Result<Piece, AllocError>
    ensures { IfOk result (λ piece. piece ≡ piece_of (layout_lines first number layout.now)) }
{
    let mut emitter = Emitter::new(alloc);
    put_layout(&mut emitter, first, number, layout)?;
    piece_of(alloc, &emitter)
}

/// The piece of lines.
fn piece_of(alloc: Global, emitter: &Emitter) -> Result<Piece, AllocError>
    ensures { IfOk result (λ piece. piece ≡ piece_of emitter.now) }
{
    let items = items_of(alloc, emitter.lines())?;
    let marks = marks_of(alloc, emitter.lines())?;
    Ok(Piece {
        items: Seq::from(items),
        marks: Seq::from(marks),
    })
}

/// The items of lines.
fn items_of(alloc: Global, lines: &[Line]) -> Result<Vec<Item>, AllocError>
    ensures { IfOk result (λ items. items.items ≡ items_of (lines_of lines.now)) }
{
    let mut items = Vec::new(alloc);
    for line in lines {
        items.push(line.item)?;
    }
    Ok(items)
}

/// The marks of lines.
fn marks_of(alloc: Global, lines: &[Line]) -> Result<Vec<Mark>, AllocError>
    ensures { IfOk result (λ marks. marks.items ≡ marks_from 0 (lines_of lines.now)) }
{
    let mut marks = Vec::new(alloc);
    let mut place: u32 = 0;
    for line in lines {
        put_mark(&mut marks, place, line.said)?;
        place = number_behind(place)?;
    }
    Ok(marks)
}

/// Puts the mark of an item behind the others, if anything is said of the item.
fn put_mark(marks: &mut Vec<Mark>, place: u32, said: Said) -> Result<(), AllocError>
    ensures { OnOk result (marks.new.items ≡ marks.old.items ++ mark_of place (said_of said)) }
{
    let item = Label(place);
    match said {
        Said::Nothing => return Ok(()),
        Said::Starts {
            statement,
            instance,
        } => marks.push(Mark::Row {
            item,
            statement,
            instance,
        })?,
        Said::Decides {
            decision,
            condition,
            instance,
        } => marks.push(Mark::Role {
            item,
            kind: RoleKind::CONDITION,
            decision,
            condition,
            value: 1,
            instance,
        })?,
        Said::Checks => marks.push(no_condition(item, RoleKind::CHECK))?,
        Said::Steers => marks.push(no_condition(item, RoleKind::STRUCTURE))?,
    }
    Ok(())
}

/// The mark of a branch that decides no condition.
fn no_condition(item: Label, kind: RoleKind) -> Mark
    ensures { result ≡ mark.Role item kind (record { 0 = 0 }) (record { 0 = 0 }) 0 (record { 0 = 0 }) }
{
    Mark::Role {
        item,
        kind,
        decision: DecId(0),
        condition: CondIx(0),
        value: 0,
        instance: InstId(0),
    }
}
