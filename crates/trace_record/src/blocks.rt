//! The blocks of a run, read from the marks of the words.

ghost use Rattle.std.specs.Prelude.{◌≡◌, ◌≤◌, length, IfOk};
ghost use Rattle.trace_record.specs.Written.{mark_at, block_at, blocks_from};

use crate::mark::Mark;
use bitflags::Flags;
use decision_map::DecisionMap;
use object_format::TEXT_START;
use rv_semantics::place_of;
use std::alloc::{AllocError, Global};
use trace_format::Block;

/// The blocks that the marks of an object's words show, in rising order.
pub fn blocks_of(
    alloc: Global,
    map: &DecisionMap<'_>,
    marks: &[Mark],
) -> Result<Vec<Block>, AllocError>
    requires { length marks.now ≤ 4194304 }
    ensures { IfOk result (λ blocks. blocks.items ≡ blocks_from map.now marks.now 65536 marks.now) }
{
    let mut blocks = Vec::new(alloc);
    let mut start = TEXT_START;
    for mark in marks {
        if let Some(block) = block_at(map, marks, *mark, start) {
            blocks.push(block)?;
        }
        start += 4;
    }
    Ok(blocks)
}

/// The block that starts at an address whose word has this mark, if one does.
fn block_at(map: &DecisionMap<'_>, marks: &[Mark], mark: Mark, start: u32) -> Option<Block>
    ensures { result ≡ block_at map.now marks.now mark start }
{
    if !mark.contains(Mark::STARTS) {
        return None;
    }
    let last = map.block_end(start)?;
    Some(Block {
        start,
        last,
        flags: mark_at(marks, last).edges(),
    })
}

/// The mark of the word at an address. Outside the text nothing is marked.
fn mark_at(marks: &[Mark], pc: u32) -> Mark
    ensures { result ≡ mark_at marks.now pc }
{
    match place_of(pc) {
        Some(place) => marks.get(place).copied().unwrap_or(Mark(0)),
        None => Mark(0),
    }
}
