//! The entries of the files and of the line table.

ghost use Rattle.object_format.specs.Counts.{FileFits, Uncounted};
ghost use Rattle.object_format.specs.Layout as layout;

use crate::layout::stored::Stored;
use crate::object::FileEntry;
use cov_base::{Bytes, CondIx, DecId, Digest, Failure, InstId, StmtId};
use line_table::{Role, RoleKind, Row};
use spelling::Short;
use std::alloc::{AllocError, Global};

impl Stored for FileEntry {
    ghost format = { layout.file_entry };

    ghost is_counted = { FileFits };

    fn read(alloc: Global, bytes: &[u8]) -> Result<(FileEntry, &[u8]), Failure<Short>> {
        let (parts, rest) = <(Bytes, Digest)>::read(alloc, bytes)?;
        let (name, sha256) = parts;
        Ok((FileEntry { name, sha256 }, rest))
    }

    fn write(&self, into: &mut Vec<u8>) -> Result<(), AllocError> {
        self.name.write(into)?;
        self.sha256.write(into)
    }
}

impl Stored for Row {
    ghost format = { layout.row };

    ghost is_counted = { Uncounted };

    fn read(alloc: Global, bytes: &[u8]) -> Result<(Row, &[u8]), Failure<Short>> {
        let (parts, rest) = <(u32, (u32, u32))>::read(alloc, bytes)?;
        let (address, (statement, instance)) = parts;
        let row = Row {
            address,
            statement: StmtId(statement),
            instance: InstId(instance),
        };
        Ok((row, rest))
    }

    fn write(&self, into: &mut Vec<u8>) -> Result<(), AllocError> {
        (self.address, (self.statement.0, self.instance.0)).write(into)
    }
}

impl Stored for Role {
    ghost format = { layout.role };

    ghost is_counted = { Uncounted };

    fn read(alloc: Global, bytes: &[u8]) -> Result<(Role, &[u8]), Failure<Short>> {
        let (parts, rest) = <(u32, (u8, (u32, (u8, (u8, u32)))))>::read(alloc, bytes)?;
        let (address, (kind, (decision, (condition, (value, instance))))) = parts;
        let role = Role {
            address,
            kind: RoleKind(kind),
            decision: DecId(decision),
            condition: CondIx(condition),
            value,
            instance: InstId(instance),
        };
        Ok((role, rest))
    }

    fn write(&self, into: &mut Vec<u8>) -> Result<(), AllocError> {
        let condition = (self.condition.0, (self.value, self.instance.0));
        (self.address, (self.kind.0, (self.decision.0, condition))).write(into)
    }
}
