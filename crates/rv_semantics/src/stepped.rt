//! What a step comes to.

ghost use Rattle.std.specs.Prelude.{◌≡◌, Some};
ghost use Rattle.rv_semantics.specs.TrapWords.{trap_words};

use std::fmt;

/// Why the machine stopped at an instruction.
#[derive(Clone, Copy, Debug, PartialEq, Eq)]
pub enum TrapWhy {
    /// The program counter is not in the text, or a byte that is read or written is past memory.
    Outside,
    /// The word is no instruction.
    BadWord,
    /// The instruction is a breakpoint.
    Break,
    /// There is no environment call of that number, or no ending of that number.
    BadCall,
    /// An address, or the target of a jump or branch that is taken, is no multiple of its size.
    Misaligned,
    /// The instruction would write into the text.
    Store,
}

impl TrapWhy {
    /// The words by which the cause is told.
    fn words(self) -> &'static str
        ensures { result.now ≡ trap_words self }
    {
        match self {
            TrapWhy::Outside => "outside",
            TrapWhy::BadWord => "bad word",
            TrapWhy::Break => "break",
            TrapWhy::BadCall => "bad call",
            TrapWhy::Misaligned => "misaligned",
            TrapWhy::Store => "store into text",
        }
    }
}

impl fmt::Display for TrapWhy {
    ghost output = { λ why. Some (trap_words why) };

    fn fmt<W: fmt::Write>(&self, f: &mut fmt::Formatter<W>) -> fmt::Result {
        f.write_str(self.words())
    }
}

/// What a recorder sees of an executed instruction.
#[derive(Clone, Copy)]
pub struct Seen {
    /// Where the instruction stands: a byte address.
    pub pc: u32,
    /// For a conditional branch whether it was taken, and nothing for other instructions.
    pub edge: Option<bool>,
    /// The frame pointer before the instruction.
    pub x8: u32,
}

/// What one step of the machine came to.
#[derive(Clone, Copy)]
pub enum Stepped {
    /// An instruction was executed.
    Went(Seen),
    /// The program asks for the next input word.
    Get(Seen),
    /// The program puts a word.
    Put(Seen, i32),
    /// The program ended, with 0 for return, else with the number of an exception.
    End(Seen, u32),
    /// The instruction at `pc` trapped. It was not executed, and nothing changed.
    Trap { pc: u32, why: TrapWhy },
}
