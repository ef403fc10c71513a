//! Whether pieces can be linked. Addresses are counted without a bound, and held against it at the end.

ghost use Rattle.std.specs.Prelude.{◌≡◌, ◌+◌, ◌*◌, ◌<◌, ◌≤◌, IfOk, IsTrue};
ghost use Rattle.rv_semantics.specs.Layout.{text_start};
ghost use Rattle.assembler.specs.Placed.{words_of, words_in, labels_of, labels, labels_at, address_of};
ghost use Rattle.assembler.specs.Reach.{HasLabel, ItemReaches, ItemsReach, PiecesReach, EndInTime};
ghost use Rattle.linker.specs.Linked.{HasWord};
ghost use Rattle.generated_images.specs.Linkable.{CanBeLinked};

use assembler::{Item, Label, Piece};
use cov_base::Seq;
use rv_semantics::{DATA_START, TEXT_START};
use std::alloc::{AllocError, Global};

/// How many bytes a branch reaches forwards and backwards (RISC-V, volume I, 2.5).
const BRANCH_REACH: u64 = 0x1000;

/// How many a jump does.
const JUMP_REACH: u64 = 0x10_0000;

/// Whether pieces begin with a word, each jump in them is in reach of its label, and their text ends
/// before the data.
pub(crate) fn can_be_linked(alloc: Global, pieces: &[Piece]) -> Result<bool, AllocError>
    ensures { IfOk result (λ can. IsTrue can → CanBeLinked pieces.now) }
{
    let labels = labels(alloc, pieces)?;
    let in_reach = are_in_reach(labels.as_slice(), pieces)?;
    let in_time = end_in_time(pieces)?;
    Ok(in_reach && in_time && has_word(pieces))
}

/// The address so many words behind another. There is no memory for a text of 2 ^ 62 words.
fn behind(address: u64, words: u64) -> Result<u64, AllocError>
    ensures { IfOk result (λ there. there ≡ address + 4 * words) }
{
    let bytes = words.checked_mul(4).ok_or(AllocError)?;
    address.checked_add(bytes).ok_or(AllocError)
}

/// How many words items take.
fn word_count(items: &[Item]) -> Result<u64, AllocError>
    ensures { IfOk result (λ count. count ≡ words_of items.now) }
{
    let mut count: u64 = 0;
    for item in items {
        count = count
            .checked_add(u64::from(item.width()))
            .ok_or(AllocError)?;
    }
    Ok(count)
}

/// The addresses of the labels of items that stand from an address on.
fn labels_of(alloc: Global, from: u64, items: &[Item]) -> Result<Vec<u64>, AllocError>
    ensures { IfOk result (λ labels. labels.items ≡ labels_of from items.now) }
{
    let mut labels = Vec::new(alloc);
    let mut address = from;
    for item in items {
        labels.push(address)?;
        address = behind(address, u64::from(item.width()))?;
    }
    labels.push(address)?;
    Ok(labels)
}

/// The addresses of the labels of each piece.
fn labels(alloc: Global, pieces: &[Piece]) -> Result<Vec<Seq<u64>>, AllocError>
    ensures { IfOk result (λ all. all.items ≡ labels pieces.now) }
{
    let mut all = Vec::new(alloc);
    let mut address = u64::from(TEXT_START);
    for piece in pieces {
        let items = piece.items.as_slice();
        all.push(Seq::from(labels_of(alloc, address, items)?))?;
        address = behind(address, word_count(items)?)?;
    }
    Ok(all)
}

/// The addresses of the labels of a piece: none where there is no such piece.
fn labels_at(labels: &[Seq<u64>], piece: usize) -> &[u64]
    ensures { result.now ≡ labels_at labels.now piece }
{
    match labels.get(piece) {
        Some(own) => own.as_slice(),
        None => &[],
    }
}

/// Whether there is a label, and so many bytes lead from an address to it.
fn is_near(labels: &[Seq<u64>], piece: usize, label: Label, from: u64, reach: u64) -> bool
    ensures has { IsTrue result → HasLabel labels.now piece label.0 }
    ensures backwards { IsTrue result → from ≤ address_of labels.now piece label.0 + reach }
    ensures forwards { IsTrue result → address_of labels.now piece label.0 < from + reach }
{
    match labels_at(labels, piece).get(label.0 as usize).copied() {
        Some(to) => from <= to.saturating_add(reach) && to < from.saturating_add(reach),
        None => false,
    }
}

/// Whether an item of the piece `own` that stands at an address is in reach of its label.
fn item_reaches(labels: &[Seq<u64>], own: usize, address: u64, item: &Item) -> bool
    ensures { IsTrue result → ItemReaches labels.now own address item.now }
{
    match *item {
        Item::Plain(_) => true,
        Item::Branch { to, .. } => is_near(labels, own, to, address, BRANCH_REACH),
        Item::Jump { to, .. } => is_near(labels, own, to, address, JUMP_REACH),
        Item::Call { piece, to, .. } => {
            is_near(labels, piece.0 as usize, to, address, JUMP_REACH)
        }
    }
}

/// Whether items of the piece `own`, which stand from an address on, are.
fn items_reach(
    labels: &[Seq<u64>],
    own: usize,
    address: u64,
    items: &[Item],
) -> Result<bool, AllocError>
    ensures { IfOk result (λ all. IsTrue all → ItemsReach labels.now own address items.now) }
{
    let mut at = address;
    for item in items {
        if !item_reaches(labels, own, at, item) {
            return Ok(false);
        }
        at = behind(at, u64::from(item.width()))?;
    }
    Ok(true)
}

/// Whether the items of pieces are.
fn are_in_reach(labels: &[Seq<u64>], pieces: &[Piece]) -> Result<bool, AllocError>
    ensures { IfOk result (λ all. IsTrue all → PiecesReach labels.now 0 text_start pieces.now) }
{
    let mut address = u64::from(TEXT_START);
    for (own, piece) in pieces.iter().enumerate() {
        let items = piece.items.as_slice();
        if !items_reach(labels, own, address, items)? {
            return Ok(false);
        }
        address = behind(address, word_count(items)?)?;
    }
    Ok(true)
}

/// Whether the text of pieces ends where the data begin, or before.
fn end_in_time(pieces: &[Piece]) -> Result<bool, AllocError>
    ensures { IfOk result (λ in_time. IsTrue in_time → EndInTime pieces.now) }
{
    let mut address = u64::from(TEXT_START);
    for piece in pieces {
        address = behind(address, word_count(piece.items.as_slice())?)?;
    }
    Ok(address <= u64::from(DATA_START))
}

/// Whether the first piece has a word: each item takes one.
fn has_word(pieces: &[Piece]) -> bool
    ensures { IsTrue result → HasWord pieces.now }
{
    match pieces.first() {
        Some(piece) => has_item(piece.items.as_slice()),
        None => false,
    }
}

/// Whether items take a word.
fn has_item(items: &[Item]) -> bool
    ensures { IsTrue result → 0 < words_of items.now }
{
    match items.first() {
        Some(item) => item.width() > 0,
        None => false,
    }
}
