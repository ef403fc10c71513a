//! The parts of an object, in the order of its file.

ghost use Rattle.std.specs.Prelude.{◌≡◌, ◌++◌, OnOk};
ghost use Rattle.object_format.specs.Counts.{IsCountable, ObligationsFit, HasFile};
ghost use Rattle.object_format.specs.File.{parts_of};
ghost use Rattle.object_format.specs.Layout as layout;
ghost use Rattle.spelling.specs.Outcome.{Gives};

use crate::layout::list::put_list;
use crate::layout::stored::Stored;
use crate::object::{FileEntry, Object};
use crate::parts::Parts;
use cov_base::{Bytes, DecEntry, Failure, InstanceEntry, Obligations, Region, Seq, StmtEntry};
use line_table::{Role, Roles, Row, Rows};
use spelling::Short;
use std::alloc::{AllocError, Global};

/// Appends an address and words.
#[tactic(auto, unfolding(crate::specs::Layout::segment))]
fn put_segment(into: &mut Vec<u8>, address: u32, words: &Seq<u32>) -> Result<(), AllocError>
    requires { IsCountable words.now }
    ensures appends { OnOk result (into.new.items ≡ into.old.items ++ layout.segment.spell (address, words.now)) }
    ensures fits { OnOk result (layout.segment.Fits (address, words.now)) }
{
    address.write(into)?;
    words.write(into)
}

/// Instances, exceptions, statements, decisions and regions, as they follow one another.
type Listed = (
    Seq<InstanceEntry>,
    (Seq<Bytes>, (Seq<StmtEntry>, (Seq<DecEntry>, Seq<Region>))),
);

impl Stored for Obligations {
    ghost format = { layout.obligations };

    ghost is_counted = { ObligationsFit };

    #[tactic(auto, unfolding(crate::specs::Layout::obligations, crate::specs::Layout::listed))]
    fn read(alloc: Global, bytes: &[u8]) -> Result<(Obligations, &[u8]), Failure<Short>> {
        let (listed, rest) = Listed::read(alloc, bytes)?;
        let (instances, (exceptions, (statements, (decisions, regions)))) = listed;
        let obligations = Obligations {
            statements,
            decisions,
            regions,
            instances,
            exceptions,
        };
        Ok((obligations, rest))
    }

    #[tactic(auto, unfolding(crate::specs::Layout::obligations, crate::specs::Layout::listed))]
    fn write(&self, into: &mut Vec<u8>) -> Result<(), AllocError> {
        self.instances.write(into)?;
        self.exceptions.write(into)?;
        self.statements.write(into)?;
        self.decisions.write(into)?;
        self.regions.write(into)
    }
}

/// An address, and words.
type Segment = (u32, Seq<u32>);

/// Files, what coverage has to show, rows and roles, as they follow one another.
type Covered = (Seq<FileEntry>, (Obligations, (Seq<Row>, Seq<Role>)));

/// The parts that stand first in the bytes, and the bytes that follow them.
#[tactic(auto, unfolding(crate::specs::Layout::parts, crate::specs::Layout::segment, crate::specs::Layout::to_cover))]
pub fn read_parts(alloc: Global, bytes: &[u8]) -> Result<(Parts, &[u8]), Failure<Short>>
    ensures { Gives (λ x. (x.0, x.1.now)) result (layout.parts.read bytes.now) }
{
    let (read, rest) = <(Segment, (Segment, Covered))>::read(alloc, bytes)?;
    let ((entry, text), ((init_at, init), covered)) = read;
    let (files, (obligations, (rows, roles))) = covered;
    let parts = Parts {
        entry,
        text,
        init_at,
        init,
        files,
        obligations,
        rows: Rows::from(Vec::from(rows)),
        roles: Roles::from(Vec::from(roles)),
    };
    Ok((parts, rest))
}

/// Appends the parts of an object. Its closing digest isn't looked at.
#[tactic(auto, unfolding(crate::specs::Layout::parts, crate::specs::Layout::to_cover))]
pub fn put_parts(into: &mut Vec<u8>, object: &Object) -> Result<(), AllocError>
    requires { HasFile object.now }
    ensures appends { OnOk result (into.new.items ≡ into.old.items ++ layout.parts.spell (parts_of object.now)) }
    ensures fits { OnOk result (layout.parts.Fits (parts_of object.now)) }
{
    put_segment(into, object.entry, &object.text)?;
    put_segment(into, object.init_at, &object.init)?;
    object.files.write(into)?;
    object.obligations.write(into)?;
    put_list(into, object.rows.as_slice())?;
    put_list(into, object.roles.as_slice())
}
