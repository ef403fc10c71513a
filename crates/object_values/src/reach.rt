//! How far in `(others => ..)` goes (Ada RM 2012, 4.3.3).

ghost use Rattle.std.specs.Prelude.{◌≡◌, IfOk};
ghost use Rattle.object_values.specs.Reached.{IsReached, AreIndices, IsPlacing};

use ada_entities::Subtype;
use ada_tree::{Indices, ScalarRange};
use cov_base::{Pos, Seq};
use program_walk::Symbols;
use std::alloc::{AllocError, Global};

/// The indices of `(others => ..)`, from the outermost in, and the subtype of the component within.
#[derive(Drop)]
struct Reach {
    pub indices: Vec<ScalarRange>,
    pub component: Subtype,
}

/// The same with the indices as a value has them round it, where there are some.
#[derive(Drop)]
pub(crate) struct Placement {
    pub indices: Option<Indices>,
    pub component: Subtype,
}

/// How far in an `others` at each of these places goes; nowhere, where one does not stand for the
/// components of an array.
fn reached(
    alloc: Global,
    symbols: &Symbols,
    subtype: Subtype,
    others: &[Pos],
) -> Result<Option<Reach>, AllocError>
    ensures { IfOk result (IsReached symbols.now subtype others.now) }
{
    let mut indices = Vec::new(alloc);
    let mut component = subtype;
    for _ in others {
        let Some((index, within)) = symbols.array_of(component.of)? else {
            return Ok(None);
        };
        indices.push(index.range)?;
        component = within;
    }
    Ok(Some(Reach { indices, component }))
}

/// The indices, where there are some.
fn indices_of(alloc: Global, indices: &[ScalarRange]) -> Result<Option<Indices>, AllocError>
    ensures { IfOk result (AreIndices indices.now) }
{
    match indices.split_first() {
        Some((outermost, inner)) => Ok(Some(Indices {
            outermost: *outermost,
            inner: Seq::from(Vec::from_slice(alloc, inner)?),
        })),
        None => Ok(None),
    }
}

/// How far in an `others` at each of these places goes, as a value of the component is placed there. A
/// component's type that leads nowhere has no memory.
pub(crate) fn placing(
    alloc: Global,
    symbols: &Symbols,
    subtype: Subtype,
    others: &[Pos],
) -> Result<Option<Placement>, AllocError>
    ensures { IfOk result (IsPlacing symbols.now subtype others.now) }
{
    let Some(reach) = reached(alloc, symbols, subtype, others)? else {
        return Ok(None);
    };
    if !symbols.knows(reach.component.of) {
        return Err(AllocError);
    }
    let indices = indices_of(alloc, reach.indices.as_slice())?;
    Ok(Some(Placement {
        indices,
        component: reach.component,
    }))
}
