//! Code of names of objects with their parts (Ada RM 2012, 4.1.1, 4.1.3).

ghost use Rattle.std.specs.Prelude.{◌≡◌, ◌≤◌, pos, IfNone, IfOk, IfSome, OnOk};
ghost use Rattle.ada_meaning.specs.Tree as tree;
ghost use Rattle.ada_tree.specs.Programs.{bounds_of};
ghost use Rattle.ada_tree.specs.View.{is_filled, object_of, parts_of, with_selector};
ghost use Rattle.ada_resolved.specs.Forms.{shape_of, shapes_of};
ghost use Rattle.ada_resolved.specs.Sizes.{word_limit};
ghost use Rattle.kernel_ir.specs.Sequence.{joined};
ghost use Rattle.kernel_ir.specs.declared.simple.Simple.TheVariants as op;
ghost use Rattle.statement_code.specs.Objects.{component_of};
ghost use Rattle.statement_code.specs.Values.{part_shape};
ghost use Rattle.lower.specs.Context.{shape_named, text};
ghost use Rattle.lower.specs.Pieces.{located_for, parts_for};

use crate::context::BodyContext;
use crate::value::put_value;
use ada_resolved::{RecordForm, TypeForm, TypeIn};
use ada_tree::{Object, Owner, Range, Selector, Subtype};
use cov_base::number_behind;
use kernel_ir::{Code, Simple, Slot};
use std::alloc::{AllocError, Global};

/// A record without a component: the type of a component that is none, which no legal program names.
const NOTHING: TypeIn = TypeIn {
    instance: 0,
    subtype: Subtype::Composite(Owner::Here, 0),
    below: 0,
};

/// Whether a name has selectors.
pub(crate) fn has_parts(selectors: &[Selector]) -> bool
    ensures { result ≡ is_filled selectors.now }
{
    !selectors.is_empty()
}

/// How many words behind the first component the one with an index stands, on a slot: the index has to be
/// one of these values (RM 4.1.1).
fn index_on(slot: Slot, range: Range, size: u32) -> Simple
    ensures { result ≡ op.Index slot slot (bounds_of range).low (bounds_of range).high size }
{
    Simple::Index {
        to: slot,
        from: slot,
        low: range.first,
        high: range.last,
        size,
    }
}

/// The address so many words further, in the same slot.
fn further(slot: Slot, words: u32) -> Simple
    requires { words ≤ word_limit }
    ensures { result ≡ op.Advance slot slot (pos words) }
{
    Simple::Advance {
        to: slot,
        from: slot,
        by: words as i32,
    }
}

/// The type of a component of a record.
fn component(fields: RecordForm, place: u32) -> TypeIn
    ensures { shape_of fields.entry.sizes.now.program.now result
        ≡ component_of (shapes_of fields.entry.sizes.now.program.now fields.entry.instance fields.entry.below
        fields.entry.components.now) place }
{
    fields.component(place).unwrap_or(NOTHING)
}

/// Puts a selector behind code, where a slot holds the address of an object of a type: the slot gets that
/// of the part. An index is checked (RM 4.1.1). Answers the type of the part; what has no type has no
/// parts.
#[cycle(evaluation)]
fn put_selector(
    alloc: Global,
    context: &BodyContext,
    code: &mut Code,
    to: Slot,
    of: Option<TypeIn>,
    selector: &Selector,
) -> Result<Option<TypeIn>, AllocError>
    ensures { IfOk result (λ part. (rest : tree.Parts)
        → joined code.new (parts_for context.now to (shape_named (text context.now) part) rest)
        ≡ joined code.old (parts_for context.now to (shape_named (text context.now) of)
        (with_selector selector.now rest))) }
{
    let Some(of) = of else {
        return Ok(None);
    };
    match (context.sizes.form(of), selector) {
        (TypeForm::Record(record), Selector::Component(place)) => {
            code.push_simple(further(to, record.words_before(*place)))?;
            Ok(Some(component(record, *place)))
        }
        (TypeForm::Array(range, component), Selector::Element(_, index)) => {
            let behind = number_behind(to)?;
            put_value(alloc, context, code, behind, index)?;
            code.push_simple(index_on(behind, range, context.sizes.words(component)))?;
            code.push_simple(Simple::Offset {
                to,
                left: to,
                right: behind,
            })?;
            Ok(Some(component))
        }
        _ => Ok(None),
    }
}

/// Puts the address of an object or of a part of one behind code, into a slot.
#[cycle(evaluation)]
pub(crate) fn put_located(
    alloc: Global,
    context: &BodyContext,
    code: &mut Code,
    to: Slot,
    object: Object,
    selectors: &[Selector],
) -> Result<(), AllocError>
    ensures { OnOk result (code.new
        ≡ joined code.old (located_for context.now to (object_of object) (parts_of selectors.now))) }
{
    code.push_simple(context.home(object).address(to))?;
    let mut of = context.type_of(object);
    for selector in selectors {
        of = put_selector(alloc, context, code, to, of, selector)?;
    }
    Ok(())
}

/// The type of the part that a selector names, of an object of a type; none, where there is no such part.
fn selected(context: &BodyContext, of: Option<TypeIn>, selector: &Selector) -> Option<TypeIn>
    ensures some { IfSome result (λ part. (rest : tree.Parts)
        → part_shape (shape_of (text context.now) part) rest
        ≡ part_shape (shape_named (text context.now) of) (with_selector selector.now rest)) }
    ensures none { IfNone result ((rest : tree.Parts) → shape_named (text context.now) of
        ≡ part_shape (shape_named (text context.now) of) (with_selector selector.now rest)) }
{
    match (context.sizes.form(of?), selector) {
        (TypeForm::Record(record), Selector::Component(place)) => Some(component(record, *place)),
        (TypeForm::Array(_, component), Selector::Element(..)) => Some(component),
        _ => None,
    }
}

/// The type of a part of an object of a type: that of the last part that is there.
pub(crate) fn part_of(
    context: &BodyContext,
    of: Option<TypeIn>,
    selectors: &[Selector],
) -> Option<TypeIn>
    ensures { shape_named (text context.now) result
        ≡ part_shape (shape_named (text context.now) of) (parts_of selectors.now) }
{
    let mut part = of;
    for selector in selectors {
        let Some(next) = selected(context, part, selector) else {
            return part;
        };
        part = Some(next);
    }
    part
}
