//! A text, decoded once.

ghost use Rattle.std.specs.Prelude.{◌≡◌, length, map, option_map, IfOk};
ghost use Rattle.rv_isa.specs.Decoding.{instr_of};
ghost use Rattle.rv_semantics.specs.Layout.{text_word};

use rv_isa::{Instr, decode};
use rv_semantics::place_of;
use std::alloc::{AllocError, Global};
use std::marker::Model;

/// The words of a text, and the instruction that each of them holds, if it holds one. Contracts see
/// the words.
pub struct DecodedText<'a> {
    words: &'a [u32],
    instructions: Vec<Option<Instr>>,
}

// Written out: a derived drop is proved anew in each crate above.
impl<'a> Drop for DecodedText<'a> {
    fn drop(self) {
        let DecodedText {
            words: _,
            instructions: _,
        } = self;
    }
}

impl<'a> Model for DecodedText<'a> {
    ghost use Rattle.std.specs.Prelude.{ℕ, List, ◌≡◌, map};
    ghost use Rattle.rv_isa.specs.Decoding.{instr_of};

    ghost Value = { List ℕ };

    ghost view = { λ t. t.words.now };

    ghost invariant = { λ t. t.instructions.items ≡ map instr_of t.words.now };
}

impl<'a> DecodedText<'a> {
    /// A text with its instructions.
    pub fn of(alloc: Global, words: &'a [u32]) -> Result<Self, AllocError>
        ensures { IfOk result (λ text. text ≡ words.now) }
    {
        let instructions = decoded(alloc, words)?;
        Ok(DecodedText {
            words,
            instructions,
        })
    }

    /// The instruction of the word at an address: nothing where no word of the text stands, and an
    /// empty place where the word holds no instruction.
    pub fn at(&self, pc: u32) -> Option<Option<Instr>>
        ensures { result ≡ option_map instr_of (text_word self.now pc) }
    {
        self.instructions.get(place_of(pc)?).copied()
    }

    /// How many words there are.
    pub fn len(&self) -> usize
        ensures { result ≡ length self.now }
    {
        self.words.len()
    }
}

/// The instructions of words.
fn decoded(alloc: Global, words: &[u32]) -> Result<Vec<Option<Instr>>, AllocError>
    ensures { IfOk result (λ instructions. instructions.items ≡ map instr_of words.now) }
{
    words.iter().map(|word| held_by(*word)).collect(alloc)
}

/// The instruction that a word holds, if it holds one.
fn held_by(word: u32) -> Option<Instr>
    ensures { result ≡ instr_of word }
{
    decode(word)
}
