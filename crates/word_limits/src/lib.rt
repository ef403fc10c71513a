//! The counted limits (Ada RM 2012, 1.1.3): the conditions of a decision and the parameters of a
//! subprogram, and how many words a type, the objects of a subprogram and those of the library level may
//! take. The rules themselves stand in ada_rules.
//!
//! Words are counted up to one past the largest limit, so that no number grows beyond 32 bits, and by a
//! table with a row for each type, so that records that double cost no more than their text.
#![tactic(auto)]

mod capped;
mod excess;
mod first;
mod limit;
mod ranges;
mod rows;
mod table;
mod units;
mod words;

pub use first::first_excess;
