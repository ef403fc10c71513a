//! What the rules demand of static values (Ada RM 2012, 3.5, 4.9, 5.4).

use ada_judged::{StaticTree, Values};
use ada_tree::{Choice, ScalarRange, StaticValue};
use cov_base::{Pos, Seq};

/// Whether a case statement has an alternative for the values that no choice names (RM 5.4).
#[derive(Clone, Copy)]
pub enum Others {
    Present,
    Absent,
}

/// What a rule asks of static values.
pub enum Test {
    /// A value lies in a range (RM 3.5).
    Lies(StaticTree, ScalarRange),
    /// A value is one of those that a case statement names (RM 5.4).
    Chosen(StaticTree, Values),
    /// The first of two bounds is not above the second one.
    Ordered(StaticValue, StaticValue),
    /// Each of these values is named by one choice, or by none where there is an `others` (RM 5.4).
    Covers(Values, Others, Seq<Choice>),
}

// Written out: a derived drop is proved anew in each crate above.
impl Drop for Test {
    fn drop(self) {
        match self {
            Test::Lies(_, _) => {}
            Test::Chosen(_, _) => {}
            Test::Ordered(_, _) => {}
            Test::Covers(_, _, _) => {}
        }
    }
}

/// A demand: the first token of the construct that makes it, and the number of the generic's unit in
/// whose text it stands.
pub struct Demand {
    pub pos: Pos,
    pub generic: Option<u32>,
    pub test: Test,
}

// Written out: a derived drop is proved anew in each crate above.
impl Drop for Demand {
    fn drop(self) {
        let Demand {
            pos: _,
            generic: _,
            test: _,
        } = self;
    }
}

/// An instance that was made: the number of its generic's unit, and its own.
#[derive(Clone, Copy)]
pub struct Made {
    pub generic: u32,
    pub instance: u32,
}

/// Demands, and the instances where they stand among them.
pub enum Asked {
    Demand(Demand),
    Instantiated(Made),
}

// Written out: a derived drop is proved anew in each crate above.
impl Drop for Asked {
    fn drop(self) {
        match self {
            Asked::Demand(_) => {}
            Asked::Instantiated(_) => {}
        }
    }
}
