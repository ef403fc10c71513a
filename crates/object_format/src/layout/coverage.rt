//! The entries of what coverage has to show.

ghost use Rattle.std.specs.Prelude.{◌≡◌, ◌++◌, ◌<◌, length, OnOk};
ghost use Rattle.object_format.specs.Counts.{InstanceFits, Uncounted, DecisionFits, RegionFits};
ghost use Rattle.object_format.specs.Layout as layout;
ghost use Rattle.spelling.specs.Format as format;
ghost use Rattle.spelling.specs.Outcome.{Gives};

use crate::layout::list::{put_values, read_values};
use crate::layout::stored::Stored;
use cov_base::{
    Bytes, DecEntry, DecisionExpr, Failure, InstanceEntry, Letter, Place, Region, Seq, StmtEntry,
    StmtId,
};
use spelling::{Short, read_bytes};
use std::alloc::{AllocError, Global};

impl Stored for InstanceEntry {
    ghost format = { layout.instance_entry };

    ghost is_counted = { InstanceFits };

    fn read(alloc: Global, bytes: &[u8]) -> Result<(InstanceEntry, &[u8]), Failure<Short>> {
        let (parts, rest) = <(Bytes, (u32, (u32, u32)))>::read(alloc, bytes)?;
        let (name, (file, (line, column))) = parts;
        let instance = InstanceEntry {
            name,
            file,
            line,
            column,
        };
        Ok((instance, rest))
    }

    fn write(&self, into: &mut Vec<u8>) -> Result<(), AllocError> {
        self.name.write(into)?;
        (self.file, (self.line, self.column)).write(into)
    }
}

impl Stored for StmtEntry {
    ghost format = { layout.statement_entry };

    ghost is_counted = { Uncounted };

    fn read(alloc: Global, bytes: &[u8]) -> Result<(StmtEntry, &[u8]), Failure<Short>> {
        let (parts, rest) = <(u32, (u32, u32))>::read(alloc, bytes)?;
        let (file, (line, column)) = parts;
        Ok((StmtEntry { file, line, column }, rest))
    }

    fn write(&self, into: &mut Vec<u8>) -> Result<(), AllocError> {
        (self.file, (self.line, self.column)).write(into)
    }
}

impl Stored for Place {
    ghost format = { layout.place };

    ghost is_counted = { Uncounted };

    fn read(alloc: Global, bytes: &[u8]) -> Result<(Place, &[u8]), Failure<Short>> {
        let (parts, rest) = <(u32, u32)>::read(alloc, bytes)?;
        let (line, column) = parts;
        Ok((Place { line, column }, rest))
    }

    fn write(&self, into: &mut Vec<u8>) -> Result<(), AllocError> {
        (self.line, self.column).write(into)
    }
}

/// So many bytes, and the bytes that follow them.
fn read_run(alloc: Global, len: u8, bytes: &[u8]) -> Result<(Vec<u8>, &[u8]), Failure<Short>>
    ensures { Gives (λ x. (x.0.items, x.1.now)) result ((format.bytes_of len).read bytes.now) }
{
    let (run, rest) = read_bytes(usize::from(len), bytes)?;
    Ok((Vec::from_slice(alloc, run)?, rest))
}

/// The bytes of an expression, the places of its conditions, and the bytes that follow them.
fn read_conditions(
    alloc: Global,
    bytes: &[u8],
) -> Result<(Bytes, Seq<Place>, &[u8]), Failure<Short>>
    ensures { Gives (λ x. ((x.0, x.1), x.2.now)) result (layout.conditions.read bytes.now) }
{
    let (counts, rest) = <(u8, u8)>::read(alloc, bytes)?;
    let (count, len) = counts;
    let (postfix, rest) = read_run(alloc, len, rest)?;
    let (places, rest) = read_values(alloc, u32::from(count), rest)?;
    Ok((Bytes::from(postfix), Seq::from(places), rest))
}

/// Appends an expression and the places of its conditions.
fn put_conditions(
    into: &mut Vec<u8>,
    postfix: &Bytes,
    places: &Seq<Place>,
) -> Result<(), AllocError>
    requires postfix { length postfix.now < 256 }
    requires places { length places.now < 256 }
    ensures appends { OnOk result (into.new.items ≡ into.old.items ++ layout.conditions.spell (postfix.now, places.now)) }
    ensures fits { OnOk result (layout.conditions.Fits (postfix.now, places.now)) }
{
    (places.len() as u8, postfix.len() as u8).write(into)?;
    into.extend_from_slice(postfix.as_slice())?;
    put_values(into, places.as_slice())
}

/// Where a decision stands: its statement and file, its line, column and letter.
type DecisionHead = (u32, (u32, (u32, (u32, u8))));

impl Stored for DecEntry {
    ghost format = { layout.decision_entry };

    ghost is_counted = { DecisionFits };

    fn read(alloc: Global, bytes: &[u8]) -> Result<(DecEntry, &[u8]), Failure<Short>> {
        let (head, rest) = DecisionHead::read(alloc, bytes)?;
        let (postfix, conditions, rest) = read_conditions(alloc, rest)?;
        let (statement, (file, (line, (column, letter)))) = head;
        let decision = DecEntry {
            statement: StmtId(statement),
            file,
            line,
            column,
            letter: Letter(letter),
            expression: DecisionExpr { postfix },
            conditions,
        };
        Ok((decision, rest))
    }

    fn write(&self, into: &mut Vec<u8>) -> Result<(), AllocError> {
        let place = (self.line, (self.column, self.letter.0));
        (self.statement.0, (self.file, place)).write(into)?;
        put_conditions(into, &self.expression.postfix, &self.conditions)
    }
}

impl Stored for Region {
    ghost format = { layout.region };

    ghost is_counted = { RegionFits };

    fn read(alloc: Global, bytes: &[u8]) -> Result<(Region, &[u8]), Failure<Short>> {
        let (parts, rest) = <(u32, (u32, (u32, (u32, (u32, Bytes)))))>::read(alloc, bytes)?;
        let (file, (from_line, (from_column, (to_line, (to_column, why))))) = parts;
        let region = Region {
            file,
            from_line,
            from_column,
            to_line,
            to_column,
            why,
        };
        Ok((region, rest))
    }

    fn write(&self, into: &mut Vec<u8>) -> Result<(), AllocError> {
        let to = (self.to_line, self.to_column);
        (self.file, (self.from_line, (self.from_column, to))).write(into)?;
        self.why.write(into)
    }
}
