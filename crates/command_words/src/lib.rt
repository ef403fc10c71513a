//! The command words of gnatcov: what the words of a command line ask for. Each command is a
//! command of `clap` without subcommands, read over the words after its name.
//!
//! The contract that the layer above uses: [`words_of`] answers a command exactly where
//! `task_of` of `specs/Task.antt` finds one in the words, and then that command; and [`Usage`]
//! exactly where it finds none. Want of memory may take the place of either. [`accepted`] and
//! [`refused`] carry worked examples of the definition as their contracts.
#![tactic(auto)]

mod arguments;
mod command;
mod commands;
mod examples;
mod limits;
mod matches;
mod words;

pub use command::{Command, Usage};
pub use examples::{accepted, refused};
pub use words::words_of;
