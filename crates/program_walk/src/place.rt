//! Where a construct stands, and what the walk notes (Ada RM 2012, 4.9, 12.3).

use crate::site::Site;
use ada_demands::{Instances, Statics};
use ada_phrases::Decisions;

/// Where a construct stands: its site, what instances have for formals, and the generic in whose text it
/// is, by the number of its unit.
#[derive(Clone, Copy)]
pub struct Place<'a> {
    pub site: Site<'a>,
    pub instances: &'a Instances,
    pub generic: Option<u32>,
}

/// What the walk has met so far: decisions, demands on static values, and constants of generics.
#[derive(Drop)]
pub struct Notes {
    pub decisions: Decisions,
    pub statics: Statics,
}
