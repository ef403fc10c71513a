//! Where objects stand, and what they begin with (Ada RM 2012, 3.3.1, 7, 12.3): the slots of a body's
//! objects in its frame, the words of the library level, and the layouts of composite types.
//!
//! The contract that the layers above use: [`frame_of`] places the objects of a body behind its parameters,
//! [`library_of`] places those of the library level, instance by instance, with their initial words, and
//! [`TypeLayouts`] lays out each composite type in each instance in which it stands.
#![tactic(auto)]

mod frames;
mod initial;
mod layouts;
mod library;

pub use frames::{FrameLayout, LocalObject, frame_of};
pub use layouts::{LaidType, TypeLayouts, layouts_before};
pub use library::{LibraryLayout, LibraryPlace, library_of};
