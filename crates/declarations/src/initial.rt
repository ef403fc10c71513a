//! Initial values of objects of the library level (Ada RM 2012, 3.3.1, 4.3.3).

ghost use Rattle.std.specs.Prelude.{◌≡◌, option_map};
ghost use Rattle.ada_tree.specs.View.{static_value_of};
ghost use Rattle.ada_entities.specs.EntityViews.{Tables};
ghost use Rattle.ada_rules.specs.Declarations as rules;
ghost use Rattle.program_walk.specs.Places.{ComesTo};
ghost use Rattle.program_walk.specs.Parts.{valued_of};
ghost use Rattle.program_walk.specs.Subtypes.{subtype_in};
ghost use Rattle.declarations.specs.Initials.{library_value_of, IsTypedValue};

use crate::within::{Within, component_within};
use ada_entities::{Refusal, Subtype, refused};
use ada_phrases::Step;
use ada_syntax::Initial as Source;
use ada_tree::{Initial, StaticValue};
use cov_base::{Failure, Pos, numbered};
use object_values::value_place;
use program_walk::{Accepted, Asks, Notes, Place, Symbols, Valued};
use std::alloc::Global;

/// The initial value of an object of the library level, and the static value of the expression, where
/// it stands in no `others`.
#[derive(Clone, Copy)]
pub(crate) struct LibraryValue {
    pub(crate) initial: Initial,
    pub(crate) known: Option<StaticValue>,
}

impl LibraryValue {
    /// Of an object without an initial value; and what the step of names goes on with.
    pub(crate) fn none() -> LibraryValue
        ensures { (k : Tables) → library_value_of k result ≡ rules.no_library_value }
    {
        LibraryValue {
            initial: Initial::None,
            known: None,
        }
    }
}

/// The static value of an expression, where it stands in no `others`.
fn known_value(others: &[Pos], value: Valued) -> Option<StaticValue>
    ensures { (k : Tables) → option_map static_value_of result ≡ rules.known_value others.now (valued_of k value) }
{
    if others.is_empty() {
        Some(value.value)
    } else {
        None
    }
}

/// The initial value that a static value makes with an `others` at each of these places round it, in an
/// object of this subtype, in the step of types. That it is of the type is asked where the rules say, in a
/// declaration that begins at `pos`.
#[tactic(auto, using(crate::proofs::InitialLaws::parts))]
fn typed_value(
    symbols: &Symbols,
    pos: Pos,
    subtype: Subtype,
    within: Within,
    others: &[Pos],
    value: Valued,
) -> Result<LibraryValue, Failure<Refusal>>
    ensures { IsTypedValue symbols.now pos subtype within others.now value result }
{
    let count = numbered(others.len())?;
    let Some(initial) = within.initial(count, value) else {
        return Err(refused(value_place(symbols, pos, subtype, others)?));
    };
    Ok(LibraryValue {
        initial,
        known: known_value(others, value),
    })
}

/// The initial value of objects of the library level, which is static, in a declaration that begins at `pos`.
/// Refused at the rules' own place.
#[tactic(auto, using(crate::proofs::InitialLaws::parts))]
pub(crate) fn library_value(
    alloc: Global,
    place: &Place<'_>,
    notes: &mut Notes,
    pos: Pos,
    subtype: Subtype,
    initial: &Source,
) -> Result<LibraryValue, Failure<Refusal>>
    ensures { ComesTo library_value_of place.now notes.old notes.new
        (λ k env s. (rules.library_value env s pos (subtype_in k subtype) initial.now).answer) result }
{
    let others = initial.others.as_slice();
    let within = component_within(place.site.symbols, subtype, others)?;
    let asks = Asks::Within(within.subtype().range);
    let value = place.static_part(alloc, notes, Accepted::Any, asks, &initial.value)?;
    match place.site.step {
        Step::Naming => Ok(LibraryValue::none()),
        Step::Typing => {
            let symbols = place.site.symbols;
            typed_value(symbols, pos, subtype, within, others, value)
        }
    }
}
