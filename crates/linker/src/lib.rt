//! Placed pieces with their data and their line table: the image of a program.
//!
//! The contract that the layers above use: [`link`] gives `linked pieces init`, whose text is that of
//! the placed pieces, and whose rows and roles are those of their marks, at the addresses of the items
//! that they name. [`linked_marks_are_whole`] says that such rows and roles pass the checks that an
//! object file has to pass, if the marks of each piece are what they have to be.
#![tactic(auto)]

mod image;
mod laws;
mod linking;

pub use image::Image;
pub use laws::{items_have_their_marks, linked_marks_are_whole};
pub use linking::link;
