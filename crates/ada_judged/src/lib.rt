//! What expressions are, as the checker keeps it: what they fit, and their static values (Ada RM 2012,
//! 3.5, 4.9, 8.6). The rules themselves stand in ada_rules; `specs/Views.antt` says what the values
//! here are of its definitions.
#![tactic(auto)]

mod binary;
mod handing;
mod judged;
mod kind;
mod logic;
mod operators;
mod parts;
mod static_tree;

pub use ada_entities::{ConstantValue, FormalKind, ScalarType, Values};
pub use judged::{Form, Indexing, Judged, Spelling, Variable};
pub use kind::Kind;
pub use static_tree::{StaticKind, StaticOperand, StaticTree};
