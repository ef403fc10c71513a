//! The parts of statements, and statements without others in them (Ada RM 2012, 5, 6.4, 6.5, 11.2, 11.3).
//!
//! The contracts that the layers above use: `States` of `specs/Simple.antt` for a statement behind its
//! label, and for what stands in one (its target, its selector, its choices, its range) the rule of the
//! same name, in the step of names and in that of types, with the numbers and the demands in it. Where a
//! construct is refused, it is at the rules' own place.
#![tactic(auto)]

mod calls;
mod cases;
mod caught;
mod choices;
mod exceptions;
mod frames;
mod handing;
mod returns;
mod selectors;
mod targets;
mod turns;
mod typing;

pub use calls::call;
pub use cases::case_statement;
pub use caught::{OthersPlace, all_caught};
pub use choices::all_chosen;
pub use exceptions::raise;
pub use frames::frame_returns;
pub use returns::{return_nothing, return_value};
pub use selectors::{Selector, find_selector};
pub use targets::{assignment, target};
pub use turns::{Turns, loop_parameter, turned};
pub use typing::{null_statement, typed};
