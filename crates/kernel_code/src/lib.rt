//! The machine code of a kernel, as a definition, that it runs as the kernel means, and the writing of
//! its straight pieces: the lines of operations that hold no others.
//!
//! The definitions stand in `specs/`. A piece of code is a list of lines: items of the assembler with
//! what is said of each. `kernel_pieces kernel` are the pieces of a kernel: its start, its bodies and its
//! layouts. `Implements site kernel` says that each run of an image is one of the kernel.
//!
//! - `Line`, `Words`, `SimpleCode`, `Code`, `FillCode`, `Pieces`: the code;
//! - `Behind`, `Goes`, `Does`, `Calls`, `Fills`, `Parts`: what a machine that carries its past comes to,
//!   and when that is what a part of the kernel means;
//! - `Whole`, `Implements`: what the run of an image shows;
//! - `Marked`, `Standing`: what the marks of the code say, and where it stands.
//!
//! An [`Emitter`] is the lines of a piece so far; contracts see them as the list of lines of the
//! definitions. [`Emitter::simple`] puts an operation behind them. A [`Line`] is a line of code with what
//! is [`Said`] of it, and a [`Frame`] what the code of a body depends on.
//!
//! The contract that the layers above use: [`placed_pieces_implement_their_kernel`], whose premises
//! [`kernel_pieces_are_marked`] and [`kernel_pieces_can_be_placed`] give. Functions like these do nothing:
//! each carries laws of the definitions as its contract.
#![tactic(auto)]

mod arithmetic;
mod emitter;
mod frame;
mod instructions;
mod laws;
mod line;
mod marks;
mod memory;
mod pieces;
mod runs;
mod simple;
mod sizes;
mod standing;
mod values;

pub use emitter::Emitter;
pub use frame::Frame;
pub use instructions::{
    a3, addi, back, exception, far, high, immediate, load, low, lui, register, store,
};
pub use laws::{a_past_tells_what_its_transcript_tells, code_follows_its_kernel};
pub use line::{Line, Said};
pub use marks::bodies_are_marked;
pub use pieces::{
    kernel_pieces_are_marked, kernel_pieces_can_be_placed, placed_pieces_implement_their_kernel,
};
pub use runs::{code_implements_its_kernel, endings_are_executions, following_runs_implement};
pub use sizes::sizes_of;
pub use standing::placed_kernels_hold;
