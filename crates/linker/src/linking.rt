//! Linking.

ghost use Rattle.std.specs.Prelude.{◌≡◌, ◌++◌, IfOk, OnOk, ◌<◌, length, slice_get};
ghost use Rattle.std.specs.List.{filter_map};
ghost use Rattle.assembler.specs.Placed.{labels_at};
ghost use Rattle.assembler.specs.Reach.{AreInReach, EndInTime, AreItems};
ghost use Rattle.linker.specs.Linked.{row_of, role_of, rows_from, roles_from, linked, HasWord, AreWithin};

use crate::Image;
use assembler::{DATA_START, Label, Mark, Piece, place};
use cov_base::Seq;
use line_table::{Role, Roles, Row, Rows};
use rv_semantics::TEXT_START;
use std::alloc::{AllocError, Global};

/// Places pieces, puts the words of `init` behind them as data, and gives each mark the address of
/// the label that it names; a mark that names none of its piece is left out. The program begins at
/// the first word of the first piece.
#[tactic(auto, using(crate::proofs::Places::labels_count, crate::proofs::Places::entry_is))]
pub fn link(alloc: Global, pieces: &[Piece], init: &[u32]) -> Result<Image, AllocError>
    requires entered { HasWord pieces.now }
    requires in_reach { AreInReach pieces.now }
    requires in_time { EndInTime pieces.now }
    requires within { AreWithin init.now }
    ensures linked { IfOk result (λ image. image ≡ linked pieces.now init.now) }
    ensures fits { OnOk result (AreItems pieces.now) }
{
    let words = place(alloc, pieces)?;
    let labels = words.labels.as_slice();
    let rows = rows(alloc, labels, pieces)?;
    let roles = roles(alloc, labels, pieces)?;
    let init = Vec::from_slice(alloc, init)?;
    Ok(Image {
        // The first piece begins where the text does.
        entry: TEXT_START,
        text: words.text,
        init_at: DATA_START,
        init: Seq::from(init),
        rows: Rows::from(rows),
        roles: Roles::from(roles),
    })
}

/// The rows of pieces whose labels have these addresses.
fn rows(alloc: Global, labels: &[Seq<u32>], pieces: &[Piece]) -> Result<Vec<Row>, AllocError>
    requires { length labels.now ≡ length pieces.now }
    ensures { IfOk result (λ rows. rows.items ≡ rows_from labels.now 0 pieces.now) }
{
    let mut rows = Vec::new(alloc);
    for (own, piece) in pieces.iter().enumerate() {
        put_rows(&mut rows, labels_at(labels, own), piece.marks.as_slice())?;
    }
    Ok(rows)
}

/// Their roles.
fn roles(alloc: Global, labels: &[Seq<u32>], pieces: &[Piece]) -> Result<Vec<Role>, AllocError>
    requires { length labels.now ≡ length pieces.now }
    ensures { IfOk result (λ roles. roles.items ≡ roles_from labels.now 0 pieces.now) }
{
    let mut roles = Vec::new(alloc);
    for (own, piece) in pieces.iter().enumerate() {
        put_roles(&mut roles, labels_at(labels, own), piece.marks.as_slice())?;
    }
    Ok(roles)
}

/// The addresses of the labels of a piece.
fn labels_at(labels: &[Seq<u32>], own: usize) -> &[u32]
    requires { own < length labels.now }
    ensures { result.now ≡ labels_at labels.now own }
{
    labels[own].as_slice()
}

/// Appends the rows of marks in a piece whose labels have these addresses.
fn put_rows(rows: &mut Vec<Row>, labels: &[u32], marks: &[Mark]) -> Result<(), AllocError>
    ensures { OnOk result (rows.new.items ≡ rows.old.items ++ filter_map (row_of labels.now) marks.now) }
{
    for mark in marks {
        if let Some(row) = row_of(labels, *mark) {
            rows.push(row)?;
        }
    }
    Ok(())
}

/// Appends their roles.
fn put_roles(roles: &mut Vec<Role>, labels: &[u32], marks: &[Mark]) -> Result<(), AllocError>
    ensures { OnOk result (roles.new.items ≡ roles.old.items ++ filter_map (role_of labels.now) marks.now) }
{
    for mark in marks {
        if let Some(role) = role_of(labels, *mark) {
            roles.push(role)?;
        }
    }
    Ok(())
}

/// The row of a mark, if it is one of a row.
fn row_of(labels: &[u32], mark: Mark) -> Option<Row>
    ensures { result ≡ row_of labels.now mark }
{
    match mark {
        Mark::Row {
            item,
            statement,
            instance,
        } => address_of(labels, item).map(|address| Row {
            address,
            statement,
            instance,
        }),
        Mark::Role { .. } => None,
    }
}

/// The role of a mark, if it is one of a role.
fn role_of(labels: &[u32], mark: Mark) -> Option<Role>
    ensures { result ≡ role_of labels.now mark }
{
    match mark {
        Mark::Row { .. } => None,
        Mark::Role {
            item,
            kind,
            decision,
            condition,
            value,
            instance,
        } => {
            address_of(labels, item).map(|address| Role {
                address,
                kind,
                decision,
                condition,
                value,
                instance,
            })
        }
    }
}

/// The address of an item.
fn address_of(labels: &[u32], item: Label) -> Option<u32>
    ensures { result ≡ slice_get labels.now item.0 }
{
    labels.get(item.0 as usize).copied()
}
