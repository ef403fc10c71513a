//! `longs NUMBER..`: a list whose count takes eight bytes, written and read again.

use crate::reply::Reply;
use crate::words::numbers;
use cov_base::Failure;
use spelling::{put_long_list, read_long_list};
use std::alloc::Global;

/// Puts the bytes of a long list of numbers, and how many are read from them.
pub(crate) fn longs(alloc: Global, out: &mut Reply, words: &str) {
    let numbers = numbers(alloc, out, words);
    let mut bytes = Vec::new(alloc);
    out.note(put_long_list(&mut bytes, numbers.as_slice()));
    put_read(alloc, out, bytes.as_slice());
}

/// Puts the bytes of a long list of numbers, and how many are read from them.
fn put_read(alloc: Global, out: &mut Reply, bytes: &[u8]) {
    for byte in bytes {
        out.put(format_args!("{byte:02x}"));
    }
    match read_long_list::<u64>(alloc, bytes) {
        Ok((again, rest)) => {
            out.put(format_args!(": {} numbers, {} bytes\n", again.len(), rest.len()));
        }
        Err(Failure::Fault(_)) => out.put(": short\n"),
        Err(Failure::WantOfMemory) => out.lack_memory(),
    }
}
