//! The bodies of library units (Ada RM 2012, 6.3, 7.2, 10.1).
//!
//! [`all_bodies`] walks over the bodies of packages and of library subprograms in the order of the text, once
//! others see each unit ([`all_shown`]). [`package_body`] and [`subprogram_body`] come to the state that the
//! walk keeps (`unit_walk/specs/Bodies.antt`), or are refused at the rules' own place; what stands in a body
//! joins the typed program.
//!
//! | Modules | Of |
//! |---|---|
//! | `inside`, `packaged`, `library` | bodies of subprograms |
//! | `items`, `package_bodies`, `subprogram_bodies`, `unit_bodies` | bodies of units |
#![tactic(auto)]

mod inside;
mod items;
mod library;
mod package_bodies;
mod packaged;
mod subprogram_bodies;
mod unit_bodies;

pub use package_bodies::package_body;
pub use subprogram_bodies::subprogram_body;
pub use unit_bodies::all_bodies;
pub use unit_interfaces::{all_shown, instances_before};
