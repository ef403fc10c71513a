//! What the rules demand of static values (Ada RM 2012, 3.5, 4.9, 5.4, 12.3): a demand is met in each
//! instance of the generic in whose text it stands. The rules themselves stand in ada_rules; the words of
//! `specs/` say what the values here are of its definitions.
//!
//! [`Instances`] has what instances have for formals and constants, and computes values and bounds in
//! them. [`Statics`] is what the walk over a program notes of static values, and [`first_unmet`] tells
//! where the first demand is made that is not met.
//!
//! Values that a case statement names may be a number in a [`SpanTable`]. Contracts speak of all tables
//! that begin with what is there so far, so what was said of a demand stays right while the table grows.
#![tactic(auto)]

mod choices;
mod computing;
mod constants;
mod demand;
mod facts;
mod history;
mod known;
mod meeting;
mod spans;
mod statics;
mod unmet;
mod values;

pub use constants::GenericConstants;
pub use demand::{Asked, Demand, Made, Others, Test};
pub use facts::{Fact, Facts, Instances};
pub use spans::{ListedSpans, SpanTable, TypeValues};
pub use statics::Statics;
pub use unmet::first_unmet;
