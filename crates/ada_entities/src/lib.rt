//! Entities and regions: what names denote, as the checker keeps it (Ada RM 2012, 3.2, 8.1 to 8.3,
//! 12.3). The rules themselves stand in ada_rules; `specs/Views.antt` says what the values here are of
//! its definitions.
//!
//! Types and entities are small and copied: a composite type is a number in the table [`Types`], and
//! whether it is seen through an instance. So a type of a deep record takes no more than one of
//! integers, and what an instance has is told where it is asked for.
#![tactic(auto)]

mod composite;
mod entity;
mod fault;
mod region;
mod regions;
mod routines;
mod seen;
mod standard;
mod table;
mod tree_subtype;
mod tree_table;
mod types;
mod units;

pub use composite::{Component, Definition, Types};
pub use entity::{Access, Completion, ConstantValue, DeclaredObject, Entity, RoutineName, Values};
pub use fault::{Refusal, refused};
pub use region::{Region, key};
pub use regions::Regions;
pub use routines::{Parameter, ResultMark, Routine, Routines};
pub use seen::range_seen;
pub use standard::{predefined, test_io};
pub use tree_subtype::subtype_in_tree;
pub use tree_table::type_declarations;
pub use types::{AdaType, Composite, FormalKind, Identity, ScalarType, Subtype, TypeName};
pub use units::{Interface, Units, shown};
