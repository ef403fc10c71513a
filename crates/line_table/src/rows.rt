//! The rows: which instruction starts which statement.

ghost use Rattle.std.specs.Prelude.{◌≡◌, ◌≢◌, ◌==◌, List, find, All, Contains, IfSome, IfNone};
ghost use Rattle.line_table.specs.declared.rows.Row.{Row};

use cov_base::{InstId, StmtId};
use std::marker::Model;

/// The instruction at `address` is executed once for each start of the statement in the instance.
#[derive(Clone, Copy)]
pub struct Row {
    pub address: u32,
    pub statement: StmtId,
    pub instance: InstId,
}

/// The rows of an object. Contracts see them as a list.
#[derive(Drop)]
pub struct Rows {
    rows: Vec<Row>,
}

impl Model for Rows {
    ghost Value = { List Row };

    ghost view = { λ r. r.rows.items };
}

impl Rows {
    /// The row of an address, the first one where there are several.
    pub fn at(&self, pc: u32) -> Option<Row>
        ensures first { result ≡ find (λ row. row.address == pc) self.now }
        ensures found { IfSome result (λ row. (row.address ≡ pc) × Contains self.now row) }
        ensures none { IfNone result (All (λ row. row.address ≢ pc) self.now) }
    {
        self.rows.iter().copied().find(|row| row.address == pc)
    }

    /// All rows, in their order.
    pub fn as_slice(&self) -> &[Row]
        ensures { result.now ≡ self.now }
    {
        self.rows.as_slice()
    }
}

impl From<Vec<Row>> for Rows {
    ghost from_gives = { λ v r. r ≡ v.items };

    /// The rows of a vector, without taking memory.
    fn from(rows: Vec<Row>) -> Self {
        Rows { rows }
    }
}

impl From<Rows> for Vec<Row> {
    ghost from_gives = { λ r v. v.items ≡ r };

    /// The vector that the rows stood in, without taking memory.
    fn from(rows: Rows) -> Self {
        rows.rows
    }
}
