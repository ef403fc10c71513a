//! A consolidated file that is read in place.

ghost use Rattle.std.specs.Prelude.{◌≡◌, ◌<◌, length, IfOk, Ok, Some, slice_get};
ghost use Rattle.trace_format.specs.Consolidated.{ConsolidatedFile, consolidated_in};
ghost use Rattle.trace_format.specs.ConsolidatedFormats.{consolidated_spelling};
ghost use Rattle.trace_format.specs.ConsolidatedChecks.{IsSealed, layered, consolidated_of};

use super::check::{RunsRise, StartsRise, TrueWhereSeen, VectorsRise};
use super::fault::ConsFault;
use super::{MAGIC, StartEntry, VERSION, VectorEntry};
use cov_base::Digest;
use spelling::{Entries, LayerFault, closed, first_failing_at, opened, read_digest};
use std::marker::Model;

/// A consolidated file that passed the checks which need no object. Its entries stay where they are,
/// and contracts see what it says, with its closing digest.
pub struct ConsolidatedView<'a> {
    object: Digest,
    runs: Entries<'a, Digest>,
    starts: Entries<'a, StartEntry>,
    vectors: Entries<'a, VectorEntry>,
    closing: Digest,
}

// Written out: a derived drop is proved anew in each crate above.
impl Drop for ConsolidatedView<'_> {
    fn drop(self) {
        let ConsolidatedView {
            object: _,
            runs: _,
            starts: _,
            vectors: _,
            closing: _,
        } = self;
    }
}

impl<'a> Model for ConsolidatedView<'a> {
    ghost Value = { ConsolidatedFile };

    ghost view = { λ c. record { object = c.object; runs = c.runs; starts = c.starts; vectors = c.vectors; closing = c.closing } };

    ghost invariant = { λ c. IsSealed (record { object = c.object; runs = c.runs; starts = c.starts; vectors = c.vectors; closing = c.closing }) };
}

/// What stands in a consolidated file whose layers are right, before its entries are looked at.
#[derive(Drop)]
struct Layers<'a> {
    object: Digest,
    runs: Entries<'a, Digest>,
    starts: Entries<'a, StartEntry>,
    vectors: Entries<'a, VectorEntry>,
    closing: Digest,
}

impl<'a> Model for Layers<'a> {
    ghost Value = { ConsolidatedFile };

    ghost view = { λ c. record { object = c.object; runs = c.runs; starts = c.starts; vectors = c.vectors; closing = c.closing } };
}

impl<'a> ConsolidatedView<'a> {
    /// A view of the bytes of a consolidated file, or the first check that fails. It takes no memory.
    pub fn view(bytes: &'a [u8]) -> Result<ConsolidatedView<'a>, ConsFault>
        // What is read is spelled so, and passes.
        ensures found { IfOk result (λ c. IsSealed c × (bytes.now ≡ consolidated_spelling (consolidated_in c))) }

        // What is spelled so, and passes, is read.
        ensures only { (c : ConsolidatedFile) → IsSealed c → bytes.now ≡ consolidated_spelling (consolidated_in c) → result ≡ Ok c }

        // Which check is the first to fail.
        ensures exact { result ≡ consolidated_of bytes.now }
    {
        checked(bytes)
    }

    /// The closing digest of the object that was run. A view passed the checks of the format, which
    /// is told here to those who hold a file to its object.
    pub fn object(&self) -> Digest
        ensures value { result ≡ self.now.object }
        ensures passed { IsSealed self.now }
    {
        self.object
    }

    /// How many runs there were.
    pub fn runs(&self) -> u64
        ensures { result ≡ length self.now.runs }
    {
        self.runs.len()
    }

    /// The closing digest of the trace of a run, by its place.
    pub fn run(&self, at: u64) -> Digest
        requires { at < length self.now.runs }
        ensures { slice_get self.now.runs at ≡ Some result }
    {
        self.runs.get(at)
    }

    /// How many statements started, each counted in each instance.
    pub fn starts(&self) -> u64
        ensures { result ≡ length self.now.starts }
    {
        self.starts.len()
    }

    /// The start at a place.
    pub fn start(&self, at: u64) -> StartEntry
        requires { at < length self.now.starts }
        ensures { slice_get self.now.starts at ≡ Some result }
    {
        self.starts.get(at)
    }

    /// How many different evaluations were completed.
    pub fn vectors(&self) -> u64
        ensures { result ≡ length self.now.vectors }
    {
        self.vectors.len()
    }

    /// The evaluation at a place.
    pub fn vector(&self, at: u64) -> VectorEntry
        requires { at < length self.now.vectors }
        ensures { slice_get self.now.vectors at ≡ Some result }
    {
        self.vectors.get(at)
    }

    /// The closing digest of the file.
    pub fn closing(&self) -> Digest
        ensures { result ≡ self.now.closing }
    {
        self.closing
    }
}

/// What the checks answer, one after another.
#[tactic(auto, unfolding(crate::specs::ConsolidatedChecks::consolidated_of))]
fn checked(bytes: &[u8]) -> Result<ConsolidatedView<'_>, ConsFault>
    ensures { result ≡ consolidated_of bytes.now }
{
    let layers = layers_of(bytes)?;
    if let Some(at) = first_failing_at::<Digest, RunsRise>(&layers.runs) {
        return Err(ConsFault::Order { at });
    }
    if let Some(at) = first_failing_at::<StartEntry, StartsRise>(&layers.starts) {
        return Err(ConsFault::Order { at });
    }
    if let Some(at) = first_failing_at::<VectorEntry, VectorsRise>(&layers.vectors) {
        return Err(ConsFault::Order { at });
    }
    if let Some(at) = first_failing_at::<VectorEntry, TrueWhereSeen>(&layers.vectors) {
        return Err(ConsFault::Flag { at });
    }
    Ok(ConsolidatedView {
        object: layers.object,
        runs: layers.runs,
        starts: layers.starts,
        vectors: layers.vectors,
        closing: layers.closing,
    })
}

/// What stands in the bytes of a consolidated file.
fn layers_of(bytes: &[u8]) -> Result<Layers<'_>, LayerFault>
    ensures { result ≡ layered bytes.now }
{
    let (version, rest) = opened(&MAGIC, bytes)?;
    if version != VERSION {
        return Err(LayerFault::Version);
    }
    let (object, rest) = read_digest(rest)?;
    let (runs, rest) = Entries::read_long_list(rest)?;
    let (starts, rest) = Entries::read_long_list(rest)?;
    let (vectors, rest) = Entries::read_long_list(rest)?;
    let closing = closed(bytes, rest)?;
    Ok(Layers {
        object,
        runs,
        starts,
        vectors,
        closing,
    })
}
