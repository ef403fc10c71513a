//! Pieces of machine code with jumps to labels, and the words that they become one after the other.
//!
//! A `Piece` lists instructions and jumps; a label is the place of an item in its piece. In a
//! contract `placed pieces` says which words stand in the text and which address each label has.
//!
//! The contract that the layers above use: [`place`] gives `placed pieces`, and
//! [`placed_items_stand`] says of it that each item stands at its label's address and that each jump
//! leads to the address of its label.
#![tactic(auto)]

mod laws;
mod piece;
mod placing;

pub use laws::{items_are_placed_in_parts, labels_lie_in_the_text, placed_items_stand};
pub use piece::{Item, Label, Mark, Piece, PieceId};
pub use placing::{DATA_START, Words, place};
