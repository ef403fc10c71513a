//! Declarations of types, subtypes, objects and exceptions (Ada RM 2012, 3.2.2 to 3.8, 11.1): what they
//! declare, as the rules say it, in the innermost region of the walk.
//!
//! [`all_declared`] and [`declared`] come to what the rules say of their constructs. Where they succeed,
//! the innermost region alone changes; where a declaration is refused, what was declared before it is
//! still there.
#![tactic(auto)]

mod components;
mod constants;
mod exceptions;
mod initial;
mod kinds;
mod library;
mod literals;
mod locals;
mod objects;
mod owners;
mod trees;
mod types;
mod values;
mod within;

pub use kinds::{all_declared, declared};
