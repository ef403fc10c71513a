//! Names and expressions: from tokens to trees (Ada RM 2012, 4.1, 4.4).
//!
//! The grammar stands in `specs/` as what token lists derive, a case for each production; it knows
//! nothing of the parser. Productions open with an [`Extent`]. The tokens are read with one of them in
//! view; that this reading is the derivation is proved in `proofs/`, for every extent.
//!
//! The contract that the layers above use: [`Parser::name`] and [`Parser::expr`] answer what is read.
#![tactic(auto)]

mod building;
mod expressions;
mod extent;
mod fault;
mod names;
mod operators;
mod parser;
mod symbol;

pub use crate::extent::Extent;
pub use crate::fault::{Fault, Parsed};
pub use crate::parser::{Parser, behind, word, word_at};
pub use crate::symbol::{Symbol, symbol_in};
