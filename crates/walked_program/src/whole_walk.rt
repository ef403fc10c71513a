//! What a walk over all units leaves.

ghost use Rattle.std.specs.Prelude.{IfOk};
ghost use Rattle.walked_program.specs.Ending.{BeginsWith, EndsWith};

use ada_demands::Instances;
use ada_entities::Refusal;
use cov_base::Failure;
use std::alloc::{AllocError, Global};
use typed_program::Walk;

/// What the walk over all units leaves: what it has declared and found, and what instances have for the
/// formals and the constants of their generics.
#[derive(Drop)]
pub struct WholeWalk {
    pub walk: Walk,
    pub instances: Instances,
}

impl WholeWalk {
    /// Before any of so many units was looked at, with these instances.
    pub fn new(alloc: Global, instances: Instances, units: usize) -> Result<WholeWalk, AllocError>
        ensures { IfOk result (BeginsWith instances units) }
    {
        let walk = Walk::new(alloc, units)?;
        Ok(WholeWalk { walk, instances })
    }

    /// The same walk at its end, where it has passed all units: its instances have the values of all
    /// constants. Where it was refused, so is this.
    pub fn ended(
        self,
        alloc: Global,
        walked: Result<(), Failure<Refusal>>,
    ) -> Result<WholeWalk, Failure<Refusal>>
        ensures { EndsWith self walked result }
    {
        match walked {
            Ok(()) => {
                let WholeWalk { walk, instances } = self;
                let instances = instances.with_all_constants(alloc, &walk.notes.statics.constants)?;
                Ok(WholeWalk { walk, instances })
            }
            Err(failure) => Err(failure),
        }
    }
}

/// Gives back the memory of a walk, for who keeps it no longer. What it takes to drop one is proved anew in
/// each crate that drops one, and this crate does it for those above.
pub fn discard_walk(whole: WholeWalk) {
    drop(whole);
}
