//! The entries that were met so far.

ghost use Rattle.std.specs.Prelude.{◌≡◌, OnOk};
ghost use Rattle.ada_meaning.specs.Obligations.{statement_entry};
ghost use Rattle.ada_tree.specs.View.{label_of};
ghost use Rattle.obligations.specs.Entries.{no_entry, joined, of_entry, of_label};
ghost use Rattle.obligations.specs.Spelled.{entry_of, nothing_spelled};

use crate::decisions::Spelling;
use ada_tree::Label;
use cov_base::{Bytes, DecEntry, DecisionExpr, Letter, Seq, StmtEntry, StmtId};
use std::alloc::{AllocError, Global};
use std::marker::Model;

/// The entries so far: of statements, and of decisions.
#[derive(Drop)]
pub(crate) struct Listing {
    alloc: Global,
    statements: Vec<StmtEntry>,
    decisions: Vec<DecEntry>,
}

impl Model for Listing {
    ghost use Rattle.obligations.specs.Entries.{Entries};

    ghost Value = { Entries };

    ghost view = { λ l. record { statements = l.statements.items; decisions = l.decisions.items } };
}

impl Listing {
    /// No entry.
    pub(crate) fn new(alloc: Global) -> Self
        ensures { result ≡ no_entry }
    {
        Listing {
            alloc,
            statements: Vec::new(alloc),
            decisions: Vec::new(alloc),
        }
    }

    /// Adds the entry of a statement, or of a declaration with an initial value.
    pub(crate) fn add_statement(&mut self, label: Label) -> Result<(), AllocError>
        ensures { OnOk result (self.new ≡ joined self.old (of_label (label_of label))) }
    {
        self.statements.push(statement_entry(label))?;
        Ok(())
    }

    /// The expression of the next decision, of which nothing is spelled yet.
    pub(crate) fn spelling(&self) -> Spelling
        ensures { result ≡ nothing_spelled }
    {
        Spelling::new(self.alloc)
    }

    /// Adds the entry of a decision with this letter, which the statement with this number holds, and behind
    /// it those that are nested in its conditions.
    pub(crate) fn add_decision(
        &mut self,
        letter: Letter,
        statement: u32,
        label: Label,
        spelling: Spelling,
    ) -> Result<(), AllocError>
        ensures { OnOk result (self.new ≡ joined self.old (joined (of_entry (entry_of letter.0 statement (label_of label) spelling)) spelling.nested)) }
    {
        let mut nested = spelling.nested;
        self.decisions.push(DecEntry {
            statement: StmtId(statement),
            file: label.place.file,
            line: label.place.line,
            column: label.place.col,
            letter,
            expression: DecisionExpr {
                postfix: Bytes::from(spelling.postfix),
            },
            conditions: Seq::from(spelling.conditions),
        })?;
        self.append(&mut nested)
    }

    /// Adds entries behind these, and leaves none there.
    fn append(&mut self, others: &mut Listing) -> Result<(), AllocError>
        ensures { OnOk result (self.new ≡ joined self.old others.old) }
    {
        self.statements.append(&mut others.statements)?;
        self.decisions.append(&mut others.decisions)?;
        Ok(())
    }

    /// The entries of statements, and those of decisions.
    pub(crate) fn into_parts(self) -> (Vec<StmtEntry>, Vec<DecEntry>)
        ensures statements { result.0.items ≡ self.statements }
        ensures decisions { result.1.items ≡ self.decisions }
    {
        (self.statements, self.decisions)
    }
}

/// The entry of a statement obligation.
fn statement_entry(label: Label) -> StmtEntry
    ensures { result ≡ statement_entry (label_of label) }
{
    StmtEntry {
        file: label.place.file,
        line: label.place.line,
        column: label.place.col,
    }
}
