//! The commands of gnatcov as one call: [`gnatcov`] takes the command words, the files and the
//! sink of the output, and answers a [`Status`].
//!
//! A command reads its files, checks all of them and makes its output before anything is written
//! or put. So a refusal leaves the files as they were and puts one line, which tells it.
//!
//! The contract of [`gnatcov`] begins with one clause that determines each answer, `answers`, over
//! `Answers` of `commands/specs/Outcome.antt`. Those that follow from it are for a reader: when files
//! change, why a read or a write fault comes, and that after `coverage` over the object of a
//! program and traces of its runs the report is that of the program's own executions.
#![tactic(auto)]

mod compile;
mod top_call;

pub use commands::{FileRef, Status};
pub use top_call::gnatcov;
