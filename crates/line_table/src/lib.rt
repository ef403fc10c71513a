//! The line table of an object: which instruction starts which statement, and what each conditional
//! branch decides.
//!
//! The contract that the layers above use: [`Rows::at`] and [`Roles::at`] give the entry of an
//! address, and None exactly where no entry has that address.
#![tactic(auto)]

mod roles;
mod rows;

pub use roles::{Role, RoleKind, Roles};
pub use rows::{Row, Rows};
