//! Copies of bodies.

use cov_base::{InstId, Seq};

/// A copy of a body (RM 12.3): the instance that it belongs to, which is 0 outside generics, and the
/// number of its subprogram in the program.
#[derive(Clone, Copy)]
pub struct BodyCopy {
    pub instance: InstId,
    pub subprogram: u32,
}

/// The copies of a program.
pub struct Copies {
    /// In the order of the subprograms, and of the instances of each.
    pub bodies: Seq<BodyCopy>,
}

// Written out: a derived drop is proved anew in each crate above.
impl Drop for Copies {
    fn drop(self) {
        let Copies { bodies: _ } = self;
    }
}
