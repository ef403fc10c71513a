//! The parser: from the tokens of a file to the syntax trees of its library units, by way of statements
//! (Ada RM 2012, 5, 6, 7, 10, 11, 12).
//!
//! The grammar stands in `specs/` as what token lists derive, a case for each production; it knows
//! nothing of the parser. Productions open with an [`Extent`](expression_parser::Extent): [`parse`] is for
//! the whole language, and [`parse_within`] for any extent. The tokens are read with one of them in
//! view; that this reading is the derivation is proved in `proofs/`, for every extent.
//!
//! Statements may stand in one another as deep as the tokens say, and each level takes stack. The limit
//! of nesting bounds the depth: who reads sources has `nested` of `ada_lexer` look at the tokens first, and
//! parses none that pass it.
//!
//! The contract that the layers above use: [`parse`] answers the units that the tokens derive, or
//! else, where they derive none, the place at which they are refused. [`count_nodes`] answers how many
//! nodes these units have.
#![tactic(auto)]

mod arms;
mod bodies;
mod choices;
mod compound;
mod contexts;
mod heads;
mod items;
mod packages;
mod refusal;
mod simple;
mod statements;
mod units;
mod words;

pub use crate::refusal::{SyntaxFault, count_nodes, discard_units, parse, parse_within};
