//! The words that every layer of gnatcov shares: places in source text, the numbers of statements,
//! decisions, conditions and instances, vectors, events, and the obligations of a program. And what a
//! decision means: its expression, its graph, paths and outcomes, with their laws ([`decision`]).
//!
//! The contract that the layers above use: [`put_u32`] appends the four bytes from which [`u32_at`]
//! reads the same number.
#![tactic(auto)]

mod bytes;
mod counting;
pub mod decision;
mod event;
mod failure;
mod level;
mod number;
mod obligations;
mod position;
mod seq;

pub use bytes::Bytes;
pub use counting::{
    byte_behind, byte_numbered, count_of_both, number_after, number_behind, numbered,
    signed_numbered, size_of_all, size_of_both,
};
pub use event::{Event, Vector};
pub use failure::Failure;
pub use level::{Annotation, Level};
pub use number::{put_u32, u32_at};
pub use obligations::{
    DecEntry, DecisionExpr, Digest, ExceptionName, InstanceEntry, Letter, Obligations, Place,
    Region, SourceFile, StmtEntry,
};
pub use position::{CondIx, DecId, InstId, Pos, StmtId};
pub use seq::Seq;
