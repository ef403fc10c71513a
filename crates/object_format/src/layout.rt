//! How an object's parts stand in its file, down to single numbers.

mod coverage;
mod leaf;
mod list;
mod pair;
mod parts;
mod stored;
mod table;

pub use parts::{put_parts, read_parts};
