//! What objects are set to (Ada RM 2012, 3.3.1, 4.3.3, 5.2).
#![tactic(auto)]

mod initial;
mod others;
mod place;
mod reach;
mod single;

pub use initial::{NewValue, new_value};
pub use place::value_place;
pub use program_walk::{Accepted, Asks, Notes, Place, Site, Symbols};
