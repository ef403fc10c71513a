//! Placing: which words pieces become, and at which address each label stands.

ghost use Rattle.std.specs.Prelude.{◌≡◌, ◌+◌, ◌*◌, ◌^◌, ◌<◌, ◌++◌, map, IfOk, OnOk};
ghost use Rattle.rv_isa.specs.Rows.{word};
ghost use Rattle.placed_code.specs.Reach.{branch_halves, jump_halves};
ghost use Rattle.assembler.specs.Placed.{words_of, labels_of, labels, address_of, item_code, items_code, placed};
ghost use Rattle.assembler.specs.Reach.{HasLabel, ItemReaches, ItemsReach, AreInReach, EndInTime, IsItem, AreItems};
ghost use Rattle.std.specs.List.{AllByRecursion};

use crate::{Item, Label, Piece};
use cov_base::Seq;
use rv_isa::{Imm12, Imm20, Instr, encode, hold};
use rv_semantics::TEXT_START;
use std::alloc::{AllocError, Global};

/// The address at which the data of a linked program begin. The text ends there or before.
pub const DATA_START: u32 = rv_semantics::DATA_START;

/// What pieces become: the words of the text, from the start of the text on, and the address of each
/// label, of the first piece first.
#[derive(Drop)]
pub struct Words {
    pub text: Seq<u32>,
    pub labels: Seq<Seq<u32>>,
}

/// Places pieces one behind the other. Each label has its address, and each item stands at its
/// label's address; a jump leads from there to the address of its label. A contract sees operands as
/// plain numbers, so a caller learns here that they fit their fields.
pub fn place(alloc: Global, pieces: &[Piece]) -> Result<Words, AllocError>
    requires in_reach { AreInReach pieces.now }
    requires in_time { EndInTime pieces.now }
    ensures placed { IfOk result (λ words. words ≡ placed pieces.now) }
    ensures fits { OnOk result (AreItems pieces.now) }
{
    let labels = labels(alloc, pieces)?;
    let mut text = Vec::new(alloc);
    let mut address = TEXT_START;
    for (own, piece) in pieces.iter().enumerate() {
        let items = piece.items.as_slice();
        put_items(&mut text, labels.as_slice(), own, address, items)?;
        address += 4 * word_count(items);
    }
    Ok(Words {
        text: Seq::from(text),
        labels: Seq::from(labels),
    })
}

/// How many words items take.
fn word_count(items: &[Item]) -> u32
    requires { words_of items.now < 2 ^ 32 }
    ensures { result ≡ words_of items.now }
{
    let mut count = 0;
    for item in items {
        count += item.width();
    }
    count
}

/// The addresses of the labels of items that stand from an address on.
fn labels_of(alloc: Global, from: u32, items: &[Item]) -> Result<Vec<u32>, AllocError>
    requires { from + 4 * words_of items.now < 2 ^ 32 }
    ensures { IfOk result (λ labels. labels.items ≡ labels_of from items.now) }
{
    let mut labels = Vec::new(alloc);
    let mut address = from;
    for item in items {
        labels.push(address)?;
        address += 4 * item.width();
    }
    labels.push(address)?;
    Ok(labels)
}

/// The addresses of the labels of each piece.
fn labels(alloc: Global, pieces: &[Piece]) -> Result<Vec<Seq<u32>>, AllocError>
    requires { EndInTime pieces.now }
    ensures { IfOk result (λ all. all.items ≡ labels pieces.now) }
{
    let mut all = Vec::new(alloc);
    let mut address = TEXT_START;
    for piece in pieces {
        let items = piece.items.as_slice();
        all.push(Seq::from(labels_of(alloc, address, items)?))?;
        address += 4 * word_count(items);
    }
    Ok(all)
}

/// The address of a label.
fn address_of(labels: &[Seq<u32>], piece: usize, label: Label) -> u32
    requires { HasLabel labels.now piece label.0 }
    ensures { result ≡ address_of labels.now piece label.0 }
{
    labels[piece].as_slice()[label.0 as usize]
}

/// The half-words of a branch from one address to another.
fn branch_halves(from: u32, to: u32) -> Imm12
    ensures { result ≡ branch_halves from to }
{
    Imm12::new((to.wrapping_sub(from) >> 1 & 0xfff) as u16)
}

/// The half-words of a jump from one address to another.
fn jump_halves(from: u32, to: u32) -> Imm20
    ensures { result ≡ jump_halves from to }
{
    Imm20::new(to.wrapping_sub(from) >> 1 & 0xf_ffff)
}

/// Appends the words of an item of the piece `own` that stands at an address.
fn put_item(
    text: &mut Vec<u32>,
    labels: &[Seq<u32>],
    own: usize,
    address: u32,
    item: &Item,
) -> Result<(), AllocError>
    requires { ItemReaches labels.now own address item.now }
    ensures appends { OnOk result (text.new.items ≡ text.old.items ++ map word (item_code labels.now own address item.now)) }
    ensures fits { IsItem item.now }
{
    let instr = match *item {
        Item::Plain(instr) => instr,
        Item::Branch { op, rs1, rs2, to } => Instr::Branch {
            op,
            rs1,
            rs2,
            halves: branch_halves(address, address_of(labels, own, to)),
        },
        Item::Jump { rd, to } => Instr::Jal {
            rd,
            halves: jump_halves(address, address_of(labels, own, to)),
        },
        Item::Call { rd, piece, to } => Instr::Jal {
            rd,
            halves: jump_halves(address, address_of(labels, piece.0 as usize, to)),
        },
    };
    hold(&instr);
    text.push(encode(&instr))?;
    Ok(())
}

/// Appends the words of items of the piece `own`, which stand from an address on.
fn put_items(
    text: &mut Vec<u32>,
    labels: &[Seq<u32>],
    own: usize,
    address: u32,
    items: &[Item],
) -> Result<(), AllocError>
    requires within { address + 4 * words_of items.now < 2 ^ 32 }
    requires in_reach { ItemsReach labels.now own address items.now }
    ensures appends { OnOk result (text.new.items ≡ text.old.items ++ map word (items_code labels.now own address items.now)) }
    ensures fits { OnOk result (AllByRecursion IsItem items.now) }
{
    let mut at = address;
    for item in items {
        put_item(text, labels, own, at, item)?;
        at += 4 * item.width();
    }
    Ok(())
}
