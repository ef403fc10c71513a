//! How values stand in bytes: formats that are values, built from smaller ones, with what reads and
//! writes them. The layers that all files share stand here once: magic, version, closing digest.
//!
//! The contract that the layers above use: each [`Formatted`] type has a format of which both laws
//! hold. What is read is spelled so, and what has a spelling is read back from it, so that a value
//! has one spelling. [`read_file`] and [`write_file`] say the same of whole files.
//!
//! A format is declared in a page of `specs/`, and needs no law of its own:
//!
//! ```text
//! abbrev pub place : Format Place
//! place = seen_as (number & number) (λ p. record { line = p.0; column = p.1 }) (λ x. (x.line, x.column))
//!
//! pub place_ok : IsFormat place
//! place_ok = seen_as_ok _ _ _ (and_ok _ _ number_ok number_ok) (λ _ _. refl) (λ _. refl)
//! ```
//!
//! The type takes it over, is read and written field by field in the order of the format, and says
//! which of its counts have to fit. None of it needs a proof:
//!
//! ```text
//! impl Formatted for Place { ghost format = { place }; ghost is_format = { place_ok }; }
//! // in impl Readable for Place
//! fn read(_alloc: Global, bytes: &[u8]) -> Result<(Place, &[u8]), Failure<Short>> {
//!     let (line, rest) = read_u32(bytes)?;
//!     let (column, rest) = read_u32(rest)?;
//!     Ok((Place { line, column }, rest))
//! }
//! // in impl Writable for Place
//! ghost CountsFit = { λ _. Unit {0} };
//! fn write(&self, into: &mut Vec<u8>) -> Result<(), AllocError> {
//!     self.line.write(into)?;
//!     self.column.write(into)
//! }
//! ```
//!
//! A list of such values is a `Seq<Place>`, read and written by the impls here. Values of a fixed
//! number of bytes can be read in place, without memory: [`Fixed`], [`Entries`].
#![tactic(auto)]

mod check;
mod entries;
mod fault;
mod file;
mod format;
mod ids;
mod layers;
mod list;
mod number;

pub use check::{Check, first_failing_at};
pub use entries::{Entries, Fixed};
pub use fault::{LayerFault, Short};
pub use file::{read_file, write_file};
pub use format::{Formatted, Readable, Writable, one_spelling, one_value};
pub use layers::{closed, digest, opened, seal, start_file};
pub use list::{put_long_list, put_many, read_long_list, read_many};
pub use number::{put_u64, read_bytes, read_digest, read_u8, read_u32, read_u64};
