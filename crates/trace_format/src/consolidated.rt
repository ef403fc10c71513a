//! A consolidated file: which runs of an object there were, and what they covered together.

ghost use Rattle.std.specs.Prelude.{◌≡◌};
ghost use Rattle.trace_format.specs.Consolidated.{start_cmp, vector_cmp};
ghost use Rattle.trace_format.specs.ConsolidatedFormats.{start_entry, start_entry_ok, start_value, start_fixed, vector_entry, vector_entry_ok, vector_value, vector_fixed, consolidated_parts, consolidated_parts_ok};

use cov_base::{DecId, Digest, InstId, StmtId, Vector};
use spelling::{Fixed, Formatted, Writable, put_long_list};
use std::alloc::AllocError;
use std::cmp::Ordering;
use std::marker::Model;

mod check;
mod fault;
mod view;
mod write;

pub use fault::ConsFault;
pub use view::ConsolidatedView;
pub use write::write_consolidated;

/// The bytes that begin a consolidated file.
const MAGIC: [u8; 4] = *b"GCCV";

/// The version of the format.
const VERSION: u32 = 1;

/// A statement that started in an instance.
#[derive(Clone, Copy, PartialEq, Eq)]
pub struct StartEntry {
    pub statement: StmtId,
    pub instance: InstId,
}

/// A completed evaluation of a decision in an instance.
#[derive(Clone, Copy, PartialEq, Eq)]
pub struct VectorEntry {
    pub decision: DecId,
    pub instance: InstId,
    pub vector: Vector,
}

impl StartEntry {
    /// The order of starts: by statement and instance.
    fn order(&self, other: &StartEntry) -> Ordering
        ensures { result ≡ start_cmp self.now other.now }
    {
        let statements = self.statement.0.cmp(&other.statement.0);
        statements.then(self.instance.0.cmp(&other.instance.0))
    }
}

impl VectorEntry {
    /// The order of evaluations: by decision, instance, and the numbers of the vector.
    fn order(&self, other: &VectorEntry) -> Ordering
        ensures { result ≡ vector_cmp self.now other.now }
    {
        let decisions = self.decision.0.cmp(&other.decision.0);
        let instances = self.instance.0.cmp(&other.instance.0);
        let seen = self.vector.seen.cmp(&other.vector.seen);
        let values = self.vector.value.cmp(&other.vector.value);
        decisions.then(instances.then(seen.then(values)))
    }
}

impl Formatted for StartEntry {
    ghost format = { start_entry };

    ghost is_format = { start_entry_ok };
}

impl Writable for StartEntry {
    ghost CountsFit = { λ _. Unit {0} };

    fn write(&self, into: &mut Vec<u8>) -> Result<(), AllocError> {
        self.statement.write(into)?;
        self.instance.write(into)
    }
}

impl Fixed for StartEntry {
    const SIZE: usize = 8;

    ghost SIZE = { 8 };

    ghost value = { start_value };

    fn at(bytes: &[u8]) -> StartEntry {
        let (statement, instance) = bytes.split_at(4);
        StartEntry {
            statement: StmtId(u32::at(statement)),
            instance: InstId(u32::at(instance)),
        }
    }

    ghost is_fixed = { start_fixed };
}

impl Formatted for VectorEntry {
    ghost format = { vector_entry };

    ghost is_format = { vector_entry_ok };
}

impl Writable for VectorEntry {
    ghost CountsFit = { λ _. Unit {0} };

    fn write(&self, into: &mut Vec<u8>) -> Result<(), AllocError> {
        self.decision.write(into)?;
        self.instance.write(into)?;
        self.vector.seen.write(into)?;
        self.vector.value.write(into)
    }
}

impl Fixed for VectorEntry {
    const SIZE: usize = 16;

    ghost SIZE = { 16 };

    ghost value = { vector_value };

    fn at(bytes: &[u8]) -> VectorEntry {
        let (decision, rest) = bytes.split_at(4);
        let (instance, rest) = rest.split_at(4);
        let (seen, value) = rest.split_at(4);
        VectorEntry {
            decision: DecId(u32::at(decision)),
            instance: InstId(u32::at(instance)),
            vector: Vector {
                seen: u32::at(seen),
                value: u32::at(value),
            },
        }
    }

    ghost is_fixed = { vector_fixed };
}

/// What a consolidated file holds, in lists of others: the closing digest of the object that was run,
/// those of the traces of its runs, the statements that started, and the evaluations that were
/// completed. Contracts see the lists.
pub struct ConsolidatedParts<'a> {
    pub object: Digest,
    pub runs: &'a [Digest],
    pub starts: &'a [StartEntry],
    pub vectors: &'a [VectorEntry],
}

// Written out: a derived drop is proved anew in each crate above.
impl<'a> Drop for ConsolidatedParts<'a> {
    fn drop(self) {
        let ConsolidatedParts {
            object: _,
            runs: _,
            starts: _,
            vectors: _,
        } = self;
    }
}

impl<'a> Model for ConsolidatedParts<'a> {
    ghost use Rattle.trace_format.specs.Consolidated.{Consolidated};

    ghost Value = { Consolidated };

    ghost view = { λ c. record { object = c.object; runs = c.runs.now; starts = c.starts.now; vectors = c.vectors.now } };
}

impl<'a> Formatted for ConsolidatedParts<'a> {
    ghost format = { consolidated_parts };

    ghost is_format = { consolidated_parts_ok };
}

impl<'a> Writable for ConsolidatedParts<'a> {
    ghost CountsFit = { λ _. Unit {0} };

    fn write(&self, into: &mut Vec<u8>) -> Result<(), AllocError> {
        self.object.write(into)?;
        put_long_list(into, self.runs)?;
        put_long_list(into, self.starts)?;
        put_long_list(into, self.vectors)
    }
}
