//! The kernel: a flat form of programs between the typed source and machine code.
//!
//! A kernel is a tree of code over one memory of words. What the source leaves to rules is written
//! out: checks, where an exception leads, the nodes of each decision's graph, copies word by word.
//! What machine code needs and a tree doesn't have is still absent: labels, jumps and registers.
//!
//! - `Tree`: code as a pure tree, which contracts see;
//! - `World`, `Simple`, `Meaning`: what a kernel does on an input under a fuel, with its events, its
//!   output and its cost;
//! - `Limits`, `Obligations`: what machine code needs of a kernel, and what it will mark.
#![tactic(auto)]

mod code;
mod kernel;
mod laws;
mod simple;

pub use code::{Code, Edge, Node, Op};
pub use kernel::{Body, Kernel, Layout};
pub use laws::{
    code_fits_larger_kernels, copies_and_fills_set_their_words, joined_code_goes_on,
    joined_code_holds_both, layouts_keep_their_contents, more_fuel, nodes_are_of_their_graph,
    raised_numbers_are_of_exceptions, slots_hold_what_they_were_set_to, worked_examples,
};
pub use simple::{Operator, Relation, Simple, Slot};
