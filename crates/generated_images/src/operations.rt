//! The operations that hold no others, by their names and numbers.

use cov_base::{InstId, StmtId};
use kernel_ir::{Operator, Relation, Simple, Slot};

/// The operator with a name.
fn operator_named(name: &str) -> Option<Operator> {
    match name {
        "add" => Some(Operator::Add),
        "subtract" => Some(Operator::Subtract),
        "multiply" => Some(Operator::Multiply),
        "divide" => Some(Operator::Divide),
        "modulo" => Some(Operator::Modulo),
        "remainder" => Some(Operator::Remainder),
        _ => None,
    }
}

/// The relation with a name.
fn relation_named(name: &str) -> Option<Relation> {
    match name {
        "equal" => Some(Relation::Equal),
        "unequal" => Some(Relation::Unequal),
        "less" => Some(Relation::Less),
        "at_most" => Some(Relation::AtMost),
        "greater" => Some(Relation::Greater),
        "at_least" => Some(Relation::AtLeast),
        _ => None,
    }
}

/// An operation of one number.
fn of_one(name: &str, slot: Slot) -> Option<Simple> {
    match name {
        "start" => Some(Simple::Start {
            statement: StmtId(slot),
            instance: InstId(0),
        }),
        "get" => Some(Simple::Get { to: slot }),
        "put" => Some(Simple::Put { from: slot }),
        "raise" => Some(Simple::Raise { exception: slot }),
        "raise_slot" => Some(Simple::RaiseSlot { slot }),
        _ => None,
    }
}

/// An operation of two numbers.
fn of_two(name: &str, first: Slot, second: Slot) -> Option<Simple> {
    let (to, from) = (first, second);
    match name {
        "number" => Some(Simple::Number {
            to,
            value: second.cast_signed(),
        }),
        "move" => Some(Simple::Move { to, from }),
        "complement" => Some(Simple::Complement { to, from }),
        "negate" => Some(Simple::Negate { to, from }),
        "absolute" => Some(Simple::Absolute { to, from }),
        "frame_address" => Some(Simple::FrameAddress { to, slot: second }),
        "library_address" => Some(Simple::LibraryAddress { to, word: second }),
        "load" => Some(Simple::Load {
            to,
            address: second,
        }),
        "store" => Some(Simple::Store {
            address: first,
            from,
        }),
        "read_library" => Some(Simple::ReadLibrary { to, word: second }),
        "write_library" => Some(Simple::WriteLibrary { word: first, from }),
        "fill" => Some(Simple::Fill {
            at: first,
            layout: second,
        }),
        _ => None,
    }
}

/// An operation of three numbers.
fn of_three(name: &str, to: Slot, left: Slot, right: Slot) -> Option<Simple> {
    if let Some(operator) = operator_named(name) {
        return Some(Simple::Arithmetic {
            operator,
            to,
            left,
            right,
        });
    }
    if let Some(relation) = relation_named(name) {
        return Some(Simple::Compare {
            relation,
            to,
            left,
            right,
        });
    }
    match name {
        "offset" => Some(Simple::Offset { to, left, right }),
        "advance" => Some(Simple::Advance {
            to,
            from: left,
            by: right.cast_signed(),
        }),
        "within" => Some(Simple::Within {
            slot: to,
            low: left.cast_signed(),
            high: right.cast_signed(),
        }),
        "copy" => Some(Simple::Copy {
            to,
            from: left,
            words: right,
        }),
        _ => None,
    }
}

/// The operation with a name and numbers, which stand in the order of its fields.
pub(crate) fn operation(name: &str, numbers: &[i32]) -> Option<Simple> {
    match *numbers {
        [slot] => of_one(name, slot.cast_unsigned()),
        [first, second] => of_two(name, first.cast_unsigned(), second.cast_unsigned()),
        [to, left, right] => of_three(
            name,
            to.cast_unsigned(),
            left.cast_unsigned(),
            right.cast_unsigned(),
        ),
        [to, from, low, high, size] if name == "index" => Some(Simple::Index {
            to: to.cast_unsigned(),
            from: from.cast_unsigned(),
            low,
            high,
            size: size.cast_unsigned(),
        }),
        _ => None,
    }
}
