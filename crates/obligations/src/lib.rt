//! The obligations of a program: what coverage has to show of it, by place in its sources. These are
//! statements, declarations with an initial value, and the decisions of statements and expressions;
//! instances and exceptions are told beside them.
//!
//! The contract that the layers above use: [`obligations`] gives what `ada_meaning` says that the
//! obligations of a program are.
#![tactic(auto)]

mod decisions;
mod exceptions;
mod listing;
mod nested;
mod ordered;
mod program;
mod statements;

pub use program::obligations;
