//! Files in memory, by name and bytes.

mod faltering;
mod outside;
mod sources;

use cov_io::Entry;
use std::alloc::{AllocError, Global};

/// A file of this name.
fn entry(alloc: Global, name: &str, bytes: &[u8]) -> Result<Entry, AllocError> {
    Ok(Entry {
        name: String::from_str(alloc, name)?,
        bytes: Vec::from_slice(alloc, bytes)?,
    })
}
