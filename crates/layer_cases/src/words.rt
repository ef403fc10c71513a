//! The words of a line. A word that is no number refuses the line, and counts as 0.

use crate::reply::Reply;
use std::alloc::Global;

/// The first word of a text, and what stands behind the blank that ends it.
pub(crate) fn split_word(text: &str) -> (&str, &str) {
    text.split_once(' ').unwrap_or((text, ""))
}

/// The number that a word is, if it is one.
fn read<T: Copy + Default>(out: &mut Reply, number: Option<T>) -> T {
    match number {
        Some(number) => number,
        None => {
            out.refuse("no number");
            T::default()
        }
    }
}

/// A decimal number.
pub(crate) fn number(out: &mut Reply, word: &str) -> usize {
    read(out, word.parse::<usize>().ok())
}

/// A decimal number, or the greatest of 32 bits if that is less.
pub(crate) fn capped(out: &mut Reply, word: &str) -> u32 {
    number(out, word).min(u32::MAX as usize) as u32
}

/// A decimal number that may have a sign.
pub(crate) fn integer(out: &mut Reply, word: &str) -> i32 {
    read(out, word.parse::<i32>().ok())
}

/// An address, in hexadecimal digits.
pub(crate) fn address(out: &mut Reply, word: &str) -> u32 {
    read(out, u32::from_str_radix(word, 16).ok())
}

/// The decimal numbers that words are.
pub(crate) fn numbers(alloc: Global, out: &mut Reply, words: &str) -> Vec<u64> {
    let mut numbers = Vec::new(alloc);
    for word in words.split_ascii_whitespace() {
        let number = number(out, word) as u64;
        out.note(numbers.push(number));
    }
    numbers
}
