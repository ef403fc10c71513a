//! The marks of the words of a text.

ghost use Rattle.std.specs.Prelude.{⊤, ◌≡◌, ◌==◌, ℕ, ◌<◌, [], ◌∷◌, codes, length, slice_index_or};
ghost use Rattle.decision_map.specs.Kinds.{address_of};
ghost use Rattle.trace_record.specs.declared.mark.Mark.{Mark};
ghost use Rattle.trace_record.specs.Marks.{bit_of, with_bit, with_edge};

use bitflags::{Flag, Flags};
use rv_semantics::place_of;

/// What is marked of a word of the text: which edges its branch took, and whether a block starts
/// there.
#[derive(Clone, Copy, PartialEq, Eq)]
pub struct Mark(pub u8);

impl Mark {
    /// The branch was taken.
    pub const TAKEN: Mark = Mark(1);

    /// The branch was not taken.
    pub const NOT_TAKEN: Mark = Mark(2);

    /// A block starts at the word.
    pub const STARTS: Mark = Mark(4);

    /// All marks with their names.
    const FLAGS: &'static [Flag<Mark>] = &[
        Flag {
            name: "TAKEN",
            value: Mark::TAKEN,
        },
        Flag {
            name: "NOT_TAKEN",
            value: Mark::NOT_TAKEN,
        },
        Flag {
            name: "STARTS",
            value: Mark::STARTS,
        },
    ];
}

impl Mark {
    ghost use Rattle.trace_record.specs.Written.{edges_of};

    /// The edges alone, as a trace's block keeps them.
    pub fn edges(self) -> u8
        ensures { result ≡ edges_of self }
    {
        self.0 & 3
    }
}

impl Flags for Mark {
    type Bits = u8;

    ghost exact = { ⊤ };

    ghost table = { (codes "TAKEN", 1) ∷ (codes "NOT_TAKEN", 2) ∷ (codes "STARTS", 4) ∷ [] };

    ghost set_of = { λ m. m.0 };

    fn flags<'a>() -> &'a [Flag<Mark>] {
        Mark::FLAGS
    }

    fn bits(&self) -> u8 {
        self.0
    }

    fn from_bits_retain(bits: u8) -> Mark {
        Mark(bits)
    }
}

/// Marks the word at an address. Nothing is marked where no word of the text stands.
pub fn set_bit(marks: &mut Vec<Mark>, pc: u32, bit: Mark)
    ensures len { length marks.new.items ≡ length marks.old.items }
    ensures each { (place : ℕ) (d : Mark) → place < length marks.old.items
        → (slice_index_or marks.new.items place d).0
        ≡ with_bit (pc == address_of place) bit.0 (slice_index_or marks.old.items place d).0 }
{
    if let Some(place) = place_of(pc)
        && place < marks.len()
    {
        marks[place].insert(bit);
    }
}

/// Marks the edge that the branch at an address took, if it took one.
pub fn set_edge(marks: &mut Vec<Mark>, pc: u32, edge: Option<bool>)
    ensures len { length marks.new.items ≡ length marks.old.items }
    ensures each { (place : ℕ) (d : Mark) → place < length marks.old.items
        → (slice_index_or marks.new.items place d).0
        ≡ with_edge (pc == address_of place) edge (slice_index_or marks.old.items place d).0 }
{
    match edge {
        Some(true) => set_bit(marks, pc, Mark::TAKEN),
        Some(false) => set_bit(marks, pc, Mark::NOT_TAKEN),
        None => {}
    }
}
