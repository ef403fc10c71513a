//! Units as they are entered and left, and what others see of instances and subprograms (Ada RM 2012, 7.1,
//! 10.1, 12.1, 12.3).
//!
//! Between units no region is open, and a world has what the walk keeps (`program_walk/specs/Standing.antt`). A unit is
//! entered with what it sees of the library, in which its text stands (`entering`).
//!
//! | Modules | Of |
//! |---|---|
//! | `place`, `contexts`, `body_contexts`, `entering`, `unit_texts`, `laws` | where a unit stands, and how it is entered and left |
//! | `formals`, `instantiation`, `instances`, `instance_counts` | formals of generics, and what an instance comes to |
//! | `subprograms`, `recording` | library subprograms as others see them, and bodies as they join the typed program |
#![tactic(auto)]

mod body_contexts;
mod contexts;
mod entering;
mod formals;
mod instance_counts;
mod instances;
mod instantiation;
mod laws;
mod place;
mod recording;
mod subprograms;
mod unit_texts;

pub use body_contexts::body_context;
pub use contexts::package_context;
pub use entering::{enter_unit, leave_unit, note_library_words};
pub use formals::formals_declared;
pub use instance_counts::instances_before;
pub use instances::instance_shown;
pub use laws::{
    instances_are_judged, regions_seen_are_known, units_are_entered, walks_stand_before_units,
};
pub use place::UnitPlace;
pub use recording::{entry_of, record_body};
pub use specifications::{closed_by, head_of, packaged_head, specified, subprogram_declared};
pub use subprograms::subprogram_shown;
pub use unit_texts::{routine_of, text_of};
