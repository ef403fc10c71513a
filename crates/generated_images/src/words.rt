//! The words of a step.

use crate::fault::StepFault;
use cov_base::Failure;
use std::alloc::Global;

/// The first word of a text, and what stands behind the blank that ends it.
pub(crate) fn split_word(text: &str) -> (&str, &str) {
    text.split_once(' ').unwrap_or((text, ""))
}

/// A decimal number that may have a sign.
pub(crate) fn number(word: &str) -> Result<i32, Failure<StepFault>> {
    word.parse::<i32>()
        .map_err(|_| Failure::Fault(StepFault::Number))
}

/// The numbers that words are.
pub(crate) fn numbers(alloc: Global, words: &str) -> Result<Vec<i32>, Failure<StepFault>> {
    let mut numbers = Vec::new(alloc);
    for word in words.split_ascii_whitespace() {
        numbers.push(number(word)?)?;
    }
    Ok(numbers)
}
