//! What is counted against a limit, and which of two places is earlier (Ada RM 2012, 1.1.3).

ghost use Rattle.std.specs.Prelude.{◌≡◌};
ghost use Rattle.ada_rules.specs.Limits.{earlier_of};
ghost use Rattle.word_limits.specs.Counting.{most_of};

use cov_base::Pos;

/// What takes words.
#[derive(Clone, Copy)]
pub(crate) enum Limit {
    Type,
    /// The objects of a subprogram.
    Subprogram,
    /// The objects of the library level.
    Library,
}

impl Limit {
    /// How many words it may take.
    pub(crate) fn most(self) -> u32
        ensures { result ≡ most_of self }
    {
        match self {
            Limit::Type => 262_144,
            Limit::Subprogram => 2_048,
            Limit::Library => 262_144,
        }
    }
}

/// The earlier of two places.
pub(crate) fn earlier(first: Option<Pos>, second: Option<Pos>) -> Option<Pos>
    ensures { result ≡ earlier_of first second }
{
    let Some(place) = first else {
        return second;
    };
    let Some(other) = second else {
        return first;
    };
    if other.precedes(place) {
        return second;
    }
    first
}
