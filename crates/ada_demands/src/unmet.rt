//! The first demand that is not met (Ada RM 2012, 4.9, 12.3).

ghost use Rattle.std.specs.Prelude.{IfOk};
ghost use Rattle.ada_demands.specs.Past.{past_at};
ghost use Rattle.ada_demands.specs.SpanViews.{listed};
ghost use Rattle.ada_demands.specs.Unmet.{IsUnmet, IsUnmetNext, IsFirstUnmet};

use crate::demand::{Asked, Demand};
use crate::facts::Instances;
use crate::history::History;
use crate::spans::SpanTable;
use cov_base::Pos;
use std::alloc::{AllocError, Global};

/// Where a demand is made, if it is not met in each of these instances.
fn unmet_in(
    alloc: Global,
    instances: &Instances,
    spans: &SpanTable,
    places: &[u32],
    demand: &Demand,
) -> Result<Option<Pos>, AllocError>
    ensures { IfOk result (IsUnmet instances.now (listed spans.now) places.now demand.now) }
{
    if instances.all_hold(alloc, spans, places, &demand.test)? {
        return Ok(None);
    }
    Ok(Some(demand.pos))
}

/// Where a demand is made that is not met, of what is asked next.
fn unmet_next(
    alloc: Global,
    instances: &Instances,
    spans: &SpanTable,
    history: &History<'_>,
    asked: &Asked,
) -> Result<Option<Pos>, AllocError>
    ensures { IfOk result (IsUnmetNext instances.now (listed spans.now) (past_at history.now) asked.now) }
{
    match asked {
        Asked::Demand(demand) => {
            let places = history.asked_in(demand.generic);
            unmet_in(alloc, instances, spans, places, demand)
        }
        Asked::Instantiated(made) => match history.group(made.generic) {
            Some(group) => instances.unmet_of(
                alloc,
                spans,
                made.instance,
                group.demands.as_slice(),
            ),
            None => Ok(None),
        },
    }
}

/// Where the first of these demands is made that is not met: in the order in which they are asked, each
/// in the instances of its generic that were made before it, and again in each that is made behind it.
pub fn first_unmet(
    alloc: Global,
    instances: &Instances,
    spans: &SpanTable,
    asked: &[Asked],
) -> Result<Option<Pos>, AllocError>
    ensures { IfOk result (IsFirstUnmet instances.now (listed spans.now) asked.now) }
{
    let mut history = History::new(alloc);
    for next in asked {
        if let Some(pos) = unmet_next(alloc, instances, spans, &history, next)? {
            return Ok(Some(pos));
        }
        history.add(alloc, next)?;
    }
    Ok(None)
}
