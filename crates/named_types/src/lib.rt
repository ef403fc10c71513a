//! Whether a typed program names its composite types where they stand (Ada RM 2012, 3.2, 12.3): each by
//! a number below those of what is built of it, and in an instance that has the text in which it is
//! declared. And whether the objects of each subprogram begin with its parameters.
//!
//! The contract that the layers above use: [`are_types_named`] is exactly the test of `specs/Named.antt`,
//! and [`named_types_stand`] says that a program that passes it is one whose kernel can be laid out.
#![tactic(auto)]

mod laws;
mod named;
mod parameters;
mod same;

pub use laws::named_types_stand;
pub use named::are_types_named;
