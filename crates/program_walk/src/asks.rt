//! What is asked of a static expression (Ada RM 2012, 3.5, 4.9, 5.4).

ghost use Rattle.std.specs.Prelude.{◌≡◌};
ghost use Rattle.ada_demands.specs.DemandViews.{test_of};
ghost use Rattle.ada_entities.specs.EntityViews.{Tables};
ghost use Rattle.ada_entities.specs.Views.{TypeTables};
ghost use Rattle.ada_phrases.specs.ada_judged.specs.Views.{kind_of};
ghost use Rattle.program_walk.specs.Parts.{accepts_of, asks_of};

use ada_demands::Test;
use ada_entities::{AdaType, Values};
use ada_phrases::{Kind, StaticTree};
use ada_tree::ScalarRange;

/// Of which types the expression may be.
#[derive(Clone, Copy)]
pub enum Accepted {
    /// Of every one.
    Any,
    /// Of an integer type (RM 3.5.4).
    Integral,
    /// Of a discrete type (RM 3.5).
    Discrete,
    /// Of this one.
    Fitting(AdaType),
}

/// What its value has to be.
#[derive(Clone, Copy)]
pub enum Asks {
    /// One of a range (RM 3.5).
    Within(ScalarRange),
    /// One of those that a case statement names (RM 5.4).
    Among(Values),
}

impl Accepted {
    /// Whether an expression of this kind is accepted.
    pub(crate) fn accepts(self, kind: Kind) -> bool
        ensures { (k : TypeTables) → result ≡ accepts_of k self (kind_of k kind) }
    {
        match self {
            Accepted::Any => true,
            Accepted::Integral => kind.is_integral(),
            Accepted::Discrete => kind.is_discrete(),
            Accepted::Fitting(of) => kind.fits(of),
        }
    }
}

impl Asks {
    /// What is demanded of a value.
    pub(crate) fn test(self, value: StaticTree) -> Test
        ensures { (k : Tables) → test_of k result ≡ asks_of k self value }
    {
        match self {
            Asks::Within(range) => Test::Lies(value, range),
            Asks::Among(values) => Test::Chosen(value, values),
        }
    }
}
