//! How wide the frame of a body is: the code of its block works in the slots from one on, and
//! [`end_of_block`] is the first slot behind those.
//!
//! The definitions, `specs/Ends.antt`, say it of each construct from each slot, for the code that is made of
//! it on the layers above. They count from each slot alike, so a tree is walked once, from slot 0. Counts
//! stand still at 2^32 - 1: below that they are exact, and a frame of so many words has no place in memory.
//!
//! The contract that the layers above use: `end_of_block` of `specs/Ends.antt`, and `slots_of` of
//! `specs/Chains.antt`, the slots that an actual keeps until its call.
#![tactic(auto)]

mod block;
mod simple;
mod value;

pub use block::end_of_block;
pub use value::slots_of;
