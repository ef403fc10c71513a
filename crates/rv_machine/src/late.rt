//! Lists of words that are made when they are first stored to: a word that is not made yet is zero.

ghost use Rattle.std.specs.Prelude.{◌≡◌, ℕ, ◌<◌, ◌≤◌, vec_len, vec_capacity, slice_index};
ghost use Rattle.rv_semantics.specs.State.{at};

/// The word at a place.
#[inline(always)]
pub fn word_at(words: &[u32], place: usize) -> u32
    ensures { result ≡ slice_index words.now place }
{
    if place < words.len() { words[place] } else { 0 }
}

/// Stores a word at a place for which there is room, so no memory is taken.
#[inline(always)]
#[tactic(auto, using(crate::proofs::Parts::set_one))]
pub fn store_at(words: &mut Vec<u32>, place: usize, word: u32)
    requires { place < vec_capacity words.old }
    ensures room { vec_capacity words.old ≤ vec_capacity words.new }
    ensures stored { (k : ℕ) → slice_index words.new.items k ≡ at (slice_index words.old.items) place word k }
{
    if place < words.len() {
        words[place] = word;
    } else {
        store_behind(words, place, word);
    }
}

/// Stores a word behind all that were made, and makes the words between.
#[inline(never)]
#[tactic(auto, using(crate::proofs::Parts::put_one))]
fn store_behind(words: &mut Vec<u32>, place: usize, word: u32)
    requires room { place < vec_capacity words.old }
    requires behind { vec_len words.old ≤ place }
    ensures room { vec_capacity words.old ≤ vec_capacity words.new }
    ensures stored { (k : ℕ) → slice_index words.new.items k ≡ at (slice_index words.old.items) place word k }
{
    make_to(words, place);
    words.push_reserved(word);
}

/// Makes the words up to a count.
#[tactic(auto, using(crate::proofs::Parts::zero_behind))]
fn make_to(words: &mut Vec<u32>, count: usize)
    requires room { count ≤ vec_capacity words.old }
    requires behind { vec_len words.old ≤ count }
    ensures room { vec_capacity words.old ≤ vec_capacity words.new }
    ensures len { vec_len words.new ≡ count }
    ensures same { (k : ℕ) → slice_index words.new.items k ≡ slice_index words.old.items k }
{
    while words.len() < count {
        words.push_reserved(0);
    }
}
