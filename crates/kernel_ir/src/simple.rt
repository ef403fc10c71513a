//! Operations that hold no others.

use cov_base::{InstId, StmtId};

/// The number of a word of an activation's frame. The slots from the frame's width on are those of
/// an activation that is called: slot `width + j` is slot `j` of the callee.
pub type Slot = u32;

/// The operators on two integers (Ada RM 4.5.3, 4.5.5).
#[derive(Clone, Copy)]
pub enum Operator {
    Add,
    Subtract,
    Multiply,
    Divide,
    Modulo,
    Remainder,
}

/// The relations of two integers (Ada RM 4.5.2).
#[derive(Clone, Copy)]
pub enum Relation {
    Equal,
    Unequal,
    Less,
    AtMost,
    Greater,
    AtLeast,
}

/// An operation that holds no others. Each word is a number of 32 bits in two's complement. Addresses
/// count words: the address of a word is its address in bytes, divided by 4.
#[derive(Clone, Copy)]
pub enum Simple {
    /// Sets a slot to a number.
    Number {
        to: Slot,
        value: i32,
    },
    /// Sets a slot to the value of another.
    Move {
        to: Slot,
        from: Slot,
    },
    /// Sets a slot to 1 where the relation holds, and else to 0.
    Compare {
        relation: Relation,
        to: Slot,
        left: Slot,
        right: Slot,
    },
    /// Sets a slot to 0 where another is 1, and else to 1 (RM 4.5.6).
    Complement {
        to: Slot,
        from: Slot,
    },
    /// Unary minus; raises Constraint_Error where the result is no word (RM 4.5.4).
    Negate {
        to: Slot,
        from: Slot,
    },
    /// `abs`; raises Constraint_Error where the result is no word (RM 4.5.6).
    Absolute {
        to: Slot,
        from: Slot,
    },
    /// An operator; raises Constraint_Error where the divisor is 0 or the result is no word.
    Arithmetic {
        operator: Operator,
        to: Slot,
        left: Slot,
        right: Slot,
    },
    /// Raises Constraint_Error unless a slot's value lies between two numbers (RM 3.5).
    Within {
        slot: Slot,
        low: i32,
        high: i32,
    },
    /// How many words the component with an index stands behind the first one, each of `size` words;
    /// raises Constraint_Error unless the index lies between two numbers (RM 4.1.1). The product wraps.
    Index {
        to: Slot,
        from: Slot,
        low: i32,
        high: i32,
        size: u32,
    },
    /// The sum of two slots, which wraps.
    Offset {
        to: Slot,
        left: Slot,
        right: Slot,
    },
    /// The sum of a slot and a number, which wraps.
    Advance {
        to: Slot,
        from: Slot,
        by: i32,
    },
    /// The address of a slot.
    FrameAddress {
        to: Slot,
        slot: Slot,
    },
    /// The address of a word of the library level.
    LibraryAddress {
        to: Slot,
        word: u32,
    },
    /// Sets a slot to the word at the address in another; raises Program_Error outside the data area.
    Load {
        to: Slot,
        address: Slot,
    },
    /// Sets the word at the address in a slot; raises Program_Error outside the data area.
    Store {
        address: Slot,
        from: Slot,
    },
    /// Sets a slot to a word of the library level.
    ReadLibrary {
        to: Slot,
        word: u32,
    },
    /// Sets a word of the library level.
    WriteLibrary {
        word: u32,
        from: Slot,
    },
    /// Copies this many words, rising, from the address in one slot to that in another; raises
    /// Program_Error unless both stretches lie in the data area.
    Copy {
        to: Slot,
        from: Slot,
        words: u32,
    },
    /// Sets the words at the address in a slot to those of a layout; raises Program_Error unless they
    /// lie in the data area.
    Fill {
        at: Slot,
        layout: u32,
    },
    /// A statement starts, in an instance: its row.
    Start {
        statement: StmtId,
        instance: InstId,
    },
    /// Sets a slot to the next word of the input; raises End_Error at its end.
    Get {
        to: Slot,
    },
    /// Puts a slot's value.
    Put {
        from: Slot,
    },
    /// Raises an exception (RM 11.3).
    Raise {
        exception: u32,
    },
    /// Raises the exception whose number is in a slot; Program_Error where it is none.
    RaiseSlot {
        slot: Slot,
    },
}
