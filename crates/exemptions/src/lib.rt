//! Exemptions: the regions of a source that a pair of pragmas takes out of coverage.
//!
//! The contract that the layers above use: [`regions`] gives exactly the regions that the exemption
//! pragmas of a source pair into, or the first pragma that pairs with none; [`exempt`] says whether a
//! place is strictly inside one of them.
#![tactic(auto)]

mod mark;
mod pairing;

pub use pairing::{Unpaired, exempt, regions};
