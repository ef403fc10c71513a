//! The words of a machine's memory.

ghost use Rattle.std.specs.Prelude.{◌≡◌, ℕ, ◌+◌, ◌*◌, ◌/◌, ◌^◌, ◌<◌, ◌≤◌, length, take, vec_len, slice_index, IfOk};
ghost use Rattle.rv_semantics.specs.Layout.{memory_bytes, text_start, placed};
ghost use Rattle.rv_semantics.specs.State.{at};
ghost use Rattle.rv_machine.specs.Machine.{word_of};

use crate::late::{store_at, word_at};
use rv_semantics::{DATA_START, MEMORY_BYTES, TEXT_START};
use std::alloc::{AllocError, Global};
use std::marker::Model;

/// How many words the memory has.
const MEMORY_WORDS: usize = (MEMORY_BYTES / 4) as usize;

/// The first word of the data of a linked program.
const DATA_FIRST: usize = (DATA_START / 4) as usize;

/// The first word behind the middle between the data's first word and the end.
const TOP_FIRST: usize = 0x0060_0000;

/// The words of a memory. A program writes a few of its 32 MiB, so no word is made before it is first
/// stored to: `below` has those before the data of a linked program, `middle` those from there on, and
/// `top` those of its calls, which go down from the end, so the last word is its first. Room for all is
/// taken at once.
pub struct Words {
    below: Vec<u32>,
    middle: Vec<u32>,
    top: Vec<u32>,
}

// Written out: a derived drop is proved anew in each crate above.
impl Drop for Words {
    fn drop(self) {
        let Words {
            below: _,
            middle: _,
            top: _,
        } = self;
    }
}

impl Model for Words {
    ghost use Rattle.std.specs.Prelude.{◌^◌, ◌≤◌, vec_capacity};
    ghost use Rattle.rv_machine.specs.Machine.{Parts};

    ghost Value = { Parts };

    ghost view = { λ w. record { below = w.below.items; middle = w.middle.items; top = w.top.items } };

    ghost invariant = { λ w. (2 ^ 22 ≤ vec_capacity w.below)
        × (2 ^ 21 ≤ vec_capacity w.middle) × (2 ^ 21 ≤ vec_capacity w.top) };
}

impl Words {
    /// A memory of zeros.
    fn zeros(alloc: Global) -> Result<Self, AllocError>
        ensures { IfOk result (λ words. (k : ℕ) → word_of words k ≡ 0) }
    {
        let below = Vec::with_capacity(alloc, DATA_FIRST)?;
        let middle = Vec::with_capacity(alloc, TOP_FIRST - DATA_FIRST)?;
        let top = Vec::with_capacity(alloc, MEMORY_WORDS - TOP_FIRST)?;
        Ok(Words { below, middle, top })
    }

    /// The memory that a text and its data are loaded into: zero but for these. `init_at` is the
    /// address of the data `init`.
    #[tactic(auto, using(crate::proofs::Start::loaded_memory))]
    pub fn loaded_with(
        alloc: Global,
        text: &[u32],
        init_at: u32,
        init: &[u32],
    ) -> Result<Self, AllocError>
        requires text_fits { text_start + 4 * length text.now ≤ memory_bytes }
        requires init_fits { init_at + 4 * length init.now ≤ memory_bytes }
        ensures { IfOk result (λ words. (k : ℕ) → word_of words k ≡
            placed (placed (λ _. 0) (text_start / 4) text.now) (init_at / 4) init.now k) }
    {
        let mut words = Words::zeros(alloc)?;
        words.place((TEXT_START / 4) as usize, text);
        words.place((init_at / 4) as usize, init);
        Ok(words)
    }

    /// Stores words from the word `first` on.
    fn place(&mut self, first: usize, words: &[u32])
        requires { first + length words.now ≤ 2 ^ 23 }
        ensures { (k : ℕ) → word_of self.new k ≡ placed (word_of self.old) first words.now k }
    {
        for (i, word) in words.iter().enumerate() {
            self.store(first + i, *word);
        }
    }

    /// A word, by its number.
    #[inline(always)]
    pub fn word(&self, place: usize) -> u32
        requires { place < 2 ^ 23 }
        ensures { result ≡ word_of self.now place }
    {
        if place < DATA_FIRST {
            word_at(&self.below, place)
        } else if place < TOP_FIRST {
            word_at(&self.middle, place - DATA_FIRST)
        } else {
            word_at(&self.top, MEMORY_WORDS - 1 - place)
        }
    }

    /// Stores a word, by its number.
    #[inline(always)]
    #[tactic(auto, using(crate::proofs::Parts::below_stored, crate::proofs::Parts::middle_stored, crate::proofs::Parts::top_stored))]
    pub fn store(&mut self, place: usize, word: u32)
        requires { place < 2 ^ 23 }
        ensures { (k : ℕ) → word_of self.new k ≡ at (word_of self.old) place word k }
    {
        if place < DATA_FIRST {
            store_at(&mut self.below, place, word);
        } else if place < TOP_FIRST {
            store_at(&mut self.middle, place - DATA_FIRST, word);
        } else {
            store_at(&mut self.top, MEMORY_WORDS - 1 - place, word);
        }
    }
}
