//! The condition graphs of decisions: where evaluation goes on from each condition, and what a vector
//! says.
//!
//! The contract that the layers above use: [`Graph::of`] gives the graph that the definitions give to
//! the expression of the bytes, and every other call answers what the definitions say of that graph.
//! All but [`Graph::of`] take no memory.
#![tactic(auto)]

mod bits;
mod graph;
mod node;
mod reading;
mod tree;
mod turn;
mod walk;

pub use graph::Graph;
pub use node::Next;
