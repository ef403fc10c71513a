//! The object file: text, data, files, obligations, rows and roles, sealed by a digest.
//!
//! The contract that the layers above use: [`read_object`] gives an object exactly where the bytes
//! are the one file of its parts and these pass the checks, and else the first check that fails.
//! [`write_object`] gives that one file. A call that takes an [`Object`] may ask for one that can be
//! read, which contracts call `IsObject`.
#![tactic(auto)]

mod checks;
mod fault;
mod layout;
mod object;
mod parts;
mod read;
mod structure;
mod write;

pub use checks::an_object_is_laid_out;
pub use fault::ObjectFault;
pub use object::{FileEntry, MEMORY_END, Object, TEXT_START};
pub use read::read_object;
pub use spelling::digest;
pub use structure::one_object;
pub use write::{what_is_read_can_be_written, write_object, write_parts, write_with_digest};
