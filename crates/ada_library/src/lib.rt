//! The library of a program: its units by name, what they name in `with` and the order in which they
//! depend on each other, the numbers of bodies and of instances, and what each sees of it (Ada RM 2012,
//! 10.1).
//!
//! The rules stand in ada_rules; `specs/LibraryView.antt` says when a [`Library`] is theirs, and each
//! function here answers what they do. All of it is worked out once, from the list of units.
#![tactic(auto)]

mod bodies;
mod dependencies;
mod heading;
mod instances;
mod items;
mod library;
mod main_unit;
mod marks;
mod names;
mod ordering;
mod search;
mod unit_names;
mod visible;

pub use bodies::BodyNumbers;
pub use dependencies::Dependencies;
pub use heading::headings;
pub use instances::InstanceNumbers;
pub use items::item_name;
pub use library::Library;
pub use main_unit::has_main;
pub use names::Names;
pub use unit_names::UnitNames;
pub use visible::{seen, seen_in_body};
