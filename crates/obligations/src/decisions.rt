//! How the expression of a decision is spelled.

ghost use Rattle.std.specs.Prelude.{◌≡◌, OnOk};
ghost use Rattle.ada_tree.specs.View.{neutral_of};
ghost use Rattle.cov_base.specs.Expr.{operator_byte};
ghost use Rattle.obligations.specs.Spelled.{nothing_spelled, with_byte, with_condition};

use crate::listing::Listing;
use ada_tree::ShortCircuit;
use cov_base::{Place, Pos, byte_numbered};
use std::alloc::{AllocError, Global};
use std::marker::Model;

/// The byte of `not` in postfix form.
pub(crate) const NOT: u8 = 32;

/// The byte of `and then` in postfix form.
const AND_THEN: u8 = 33;

/// The byte of `or else` in postfix form.
const OR_ELSE: u8 = 34;

/// The byte of a form in postfix form.
pub(crate) fn form_byte(form: ShortCircuit) -> u8
    ensures { result ≡ operator_byte (neutral_of form) }
{
    match form {
        ShortCircuit::AndThen => AND_THEN,
        ShortCircuit::OrElse => OR_ELSE,
    }
}

/// The expression of a decision, as far as it is spelled: its bytes in postfix form, the places of its
/// conditions, and the entries of the decisions that are nested in these.
#[derive(Drop)]
pub(crate) struct Spelling {
    pub postfix: Vec<u8>,
    pub conditions: Vec<Place>,
    pub nested: Listing,
}

impl Model for Spelling {
    ghost use Rattle.obligations.specs.Spelled.{Spelled};

    ghost Value = { Spelled };

    ghost view = { λ s. record { postfix = s.postfix.items; conditions = s.conditions.items; nested = s.nested } };
}

impl Spelling {
    /// Nothing is spelled yet.
    pub(crate) fn new(alloc: Global) -> Self
        ensures { result ≡ nothing_spelled }
    {
        Spelling {
            postfix: Vec::new(alloc),
            conditions: Vec::new(alloc),
            nested: Listing::new(alloc),
        }
    }

    /// Adds a condition. Conditions are numbered in the order of the text, and the number of one is a byte:
    /// where there are more than 256, the bytes can't be had, as where memory is refused.
    pub(crate) fn add_condition(&mut self, place: Pos) -> Result<(), AllocError>
        ensures { OnOk result (self.new ≡ with_condition place self.old) }
    {
        let number = byte_numbered(self.conditions.len())?;
        self.postfix.push(number)?;
        self.conditions.push(Place {
            line: place.line,
            column: place.col,
        })?;
        Ok(())
    }

    /// Adds the byte of an operator, behind its operands.
    pub(crate) fn add_operator(&mut self, byte: u8) -> Result<(), AllocError>
        ensures { OnOk result (self.new ≡ with_byte byte self.old) }
    {
        self.postfix.push(byte)?;
        Ok(())
    }
}
