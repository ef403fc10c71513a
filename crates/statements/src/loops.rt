//! For loops, up to their statements (Ada RM 2012, 5.5).

ghost use Rattle.std.specs.Prelude.{◌≡◌, IfOk, OnOk};
ghost use Rattle.ada_rules.specs.Statements.{is_reverse};
ghost use Rattle.ada_tree.specs.View.{is_reversed};
ghost use Rattle.program_walk.specs.Trees.{IsTreeOf};
ghost use Rattle.program_walk.specs.Changes.{UnlessMemory};
ghost use Rattle.program_walk.specs.Walks.{Continues};
ghost use Rattle.statements.specs.Begun.{SetsParameter, IsBegun, HasParameter, OpensLoop, IsScheme};

use ada_entities::{Entity, Refusal, Subtype, subtype_in_tree};
use ada_syntax::{Direction as Source, DiscreteRange, Identifier};
use ada_tree::{Direction, ForScheme, Subtype as TreeSubtype};
use cov_base::{Failure, Pos};
use program_walk::{Context, Symbols, Walk, Word};
use statement_parts::{Turns, loop_parameter, turned};
use std::alloc::{AllocError, Global};

/// The beginning of a for loop: the number of its parameter among the objects of the subprogram, and its
/// values.
pub(crate) struct Begun {
    pub(crate) parameter: u32,
    pub(crate) turns: Turns,
}

// Written out: a derived drop is proved anew in each crate above.
impl Drop for Begun {
    fn drop(self) {
        let Begun {
            parameter: _,
            turns: _,
        } = self;
    }
}

/// The order in which a loop takes its values.
fn direction(source: Source) -> Direction
    ensures { is_reversed result ≡ is_reverse source }
{
    match source {
        Source::Forward => Direction::Rising,
        Source::Reverse => Direction::Falling,
    }
}

impl Begun {
    /// The iteration scheme, in this order.
    pub(crate) fn scheme(self, order: Source) -> ForScheme
        ensures { IsScheme self order result }
    {
        let Begun { parameter, turns } = self;
        ForScheme {
            parameter,
            direction: direction(order),
            values: turns.over,
        }
    }
}

/// A subtype as the typed program has it. One that leads nowhere has no memory.
fn tree_subtype(symbols: &Symbols, subtype: Subtype) -> Result<TreeSubtype, AllocError>
    ensures { IfOk result (IsTreeOf symbols.now subtype) }
{
    if !symbols.knows(subtype.of) {
        return Err(AllocError);
    }
    Ok(subtype_in_tree(subtype))
}

/// Sets the parameter of a loop whose first token stands at `pos`, whose name the innermost region hides, and
/// answers its number.
fn set_parameter(
    alloc: Global,
    walk: &mut Walk,
    pos: Pos,
    name: &Identifier,
    turns: &Turns,
) -> Result<u32, AllocError>
    ensures { IfOk result (SetsParameter walk.old walk.new pos name.now turns.now) }
{
    let parameter = walk.counts.object()?;
    let entity = loop_parameter(parameter, turns);
    walk.symbols.redefine(alloc, name, entity)?;
    let subtype = tree_subtype(&walk.symbols, turns.subtype)?;
    walk.found.add_word(Word { pos, subtype })?;
    Ok(parameter)
}

/// Begins a for loop whose first token stands at `pos`: its parameter is the one name of a new region. The
/// name is hidden in the range of the loop. Refused at the rules' own place.
#[tactic(auto, using(crate::proofs::SimpleLaws::parts))]
pub(crate) fn begin_for(
    alloc: Global,
    context: &Context<'_>,
    walk: &mut Walk,
    pos: Pos,
    name: &Identifier,
    range: &DiscreteRange,
) -> Result<Begun, Failure<Refusal>>
    ensures comes { IsBegun context.now walk.old walk.new pos name.now range.now result }
    ensures parameter { IfOk result (HasParameter walk.new name.now) }
    ensures opened { OnOk result (OpensLoop walk.old walk.new) }
    ensures continues { UnlessMemory (Continues walk.old walk.new) result }
{
    walk.symbols.open(alloc)?;
    walk.symbols.declare(alloc, name)?;
    let site = context.place(&walk.symbols).site;
    let decisions = &mut walk.notes.decisions;
    let turns = turned(alloc, &site, decisions, &mut walk.spans, range)?;
    let parameter = set_parameter(alloc, walk, pos, name, &turns)?;
    Ok(Begun { parameter, turns })
}
