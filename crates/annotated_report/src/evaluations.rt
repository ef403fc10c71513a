//! The vectors of decisions.

ghost use Rattle.std.specs.Prelude.{◌≡◌, ◌<◌, ◌++◌, ℕ, List, [], ◌∷◌, length, slice_index_or, slice_set, nat_lt, IfOk, OnOk, if◌then◌else◌};
ghost use Rattle.cov_base.specs.declared.event.Vector.{Vector};
ghost use Rattle.annotated_report.specs.Marked.{collected};
ghost use Rattle.annotated_report.specs.Verdicts.{vectors_of};

use cov_base::{Event, Vector};
use std::alloc::{AllocError, Global};
use std::marker::Model;

/// The vectors of a decision, in the order of their events. Contracts see them as a list.
pub struct Evaluations {
    vectors: Vec<Vector>,
}

// Written out: a derived drop is proved anew in each crate above.
impl Drop for Evaluations {
    fn drop(self) {
        let Evaluations { vectors: _ } = self;
    }
}

impl Model for Evaluations {
    ghost Value = { List Vector };

    ghost view = { λ e. e.vectors.items };
}

impl Evaluations {
    /// No vectors.
    fn new(alloc: Global) -> Self
        ensures { result ≡ [] }
    {
        Evaluations {
            vectors: Vec::new(alloc),
        }
    }

    /// Appends a vector.
    fn push(&mut self, vector: Vector) -> Result<(), AllocError>
        ensures { OnOk result (self.new ≡ self.old ++ vector ∷ []) }
    {
        self.vectors.push(vector)?;
        Ok(())
    }

    /// The vectors as a slice.
    pub fn as_slice(&self) -> &[Vector]
        ensures { result.now ≡ self.now }
    {
        self.vectors.as_slice()
    }
}

/// No vectors for each of so many decisions.
fn none(alloc: Global, count: usize) -> Result<Vec<Evaluations>, AllocError>
    ensures length { IfOk result (λ all. length all.items ≡ count) }
    ensures empty { IfOk result (λ all. (d : ℕ) → collected all.items d ≡ []) }
{
    let mut all = Vec::new(alloc);
    for _ in 0..count {
        all.push(Evaluations::new(alloc))?;
    }
    Ok(all)
}

/// Appends a vector to those of a decision, if there is that decision.
fn add(all: &mut [Evaluations], decision: usize, vector: Vector) -> Result<(), AllocError>
    ensures { OnOk result (all.new ≡ (if nat_lt decision (length all.old) then slice_set all.old decision (collected all.old decision ++ vector ∷ []) else all.old)) }
{
    if decision < all.len() {
        all[decision].push(vector)?;
    }
    Ok(())
}

/// Appends the vector that an event gives to those of its decision.
#[tactic(auto, using(crate::proofs::Collecting::added))]
fn take(all: &mut [Evaluations], event: &Event) -> Result<(), AllocError>
    ensures { OnOk result ((d : ℕ) → d < length all.old → collected all.new d ≡ collected all.old d ++ vectors_of (event.now ∷ []) d) }
{
    match event {
        Event::Start(..) => Ok(()),
        Event::Done(decision, _, vector) => add(all, decision.0 as usize, *vector),
    }
}

/// The vectors of each of so many decisions, in all instances.
pub fn collect(
    alloc: Global,
    count: usize,
    events: &[Event],
) -> Result<Vec<Evaluations>, AllocError>
    ensures length { IfOk result (λ all. length all.items ≡ count) }
    ensures vectors { IfOk result (λ all. (d : ℕ) → d < count → collected all.items d ≡ vectors_of events.now d) }
{
    let mut all = none(alloc, count)?;
    for event in events {
        take(all.as_mut_slice(), event)?;
    }
    Ok(all)
}
