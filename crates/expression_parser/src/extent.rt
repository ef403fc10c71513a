//! How much of the grammar is open.

ghost use Rattle.std.specs.Prelude.{◌≡◌, ◌↔◌, IsTrue};
ghost use Rattle.expression_parser.specs.Extents.{opens, rank};

/// How much of the grammar is open. Each extent has the productions of those before it. A production
/// that is closed derives nothing.
#[derive(Clone, Copy, PartialEq, Eq)]
pub enum Extent {
    /// Library procedures of `null;`, `return;` and calls whose actuals are numerals.
    StraightLine,
    /// Object declarations, assignment, names, parentheses and arithmetic.
    Objects,
    /// Relations, `not`, `and`, `or`, `xor`; if, while, loop, exit; blocks.
    Decisions,
    /// `and then`, `or else`.
    ShortCircuit,
    /// Types, subtypes, ranges, attributes of types, aggregates; case, for.
    Types,
    /// Packages, functions, parameters, several units in a file.
    Subprograms,
    /// Exceptions, raise and handlers.
    Exceptions,
    /// Generic packages and their instances.
    Generics,
    /// The pragmas of exemption: the whole grammar.
    Whole,
}

impl Extent {
    /// Whether the productions that come with `needed` are open.
    #[tactic(auto, unfolding(crate::specs::Extents::opens))]
    pub fn opens(self, needed: Extent) -> bool
        ensures { result ≡ opens self needed }
    {
        needed.rank() <= self.rank()
    }

    fn rank(self) -> u8
        ensures { result ≡ rank self }
    {
        match self {
            Extent::StraightLine => 0,
            Extent::Objects => 1,
            Extent::Decisions => 2,
            Extent::ShortCircuit => 3,
            Extent::Types => 4,
            Extent::Subprograms => 5,
            Extent::Exceptions => 6,
            Extent::Generics => 7,
            Extent::Whole => 8,
        }
    }
}
