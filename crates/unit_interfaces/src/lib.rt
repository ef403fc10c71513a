//! What other units see of each library unit (Ada RM 2012, 7.1, 10.1.1, 12.1, 12.3).
//!
//! [`all_shown`] looks at the units in the order in which they depend on each other, and each is seen by
//! others from there on: a package with its declarations, a generic with its formals too, an instance by its
//! number in the text, a subprogram with its profile. The rules then come to a world that has what the walk
//! keeps (`unit_walk/specs/Walked.antt`), or refuse at the place that is answered. No statement is looked at
//! here: bodies are `library_units`.
#![tactic(auto)]

mod interfaces;
mod items;
mod shown_packages;

pub use interfaces::all_shown;
pub use items::{package_item, package_items};
pub use unit_walk::{
    UnitPlace, body_context, closed_by, enter_unit, entry_of, head_of, instances_before,
    leave_unit, note_library_words, package_context, packaged_head, record_body, routine_of,
    specified, text_of,
};
