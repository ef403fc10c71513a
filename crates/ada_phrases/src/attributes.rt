//! Attributes of types and of objects (Ada RM 2012, 3.5, 3.6.2, 4.1.4).

ghost use Rattle.std.specs.Prelude.{◌≡◌, option_map};
ghost use Rattle.ada_tree.specs.View.{scalar_range_of};
ghost use Rattle.ada_rules.specs.Denoted as rules;
ghost use Rattle.ada_entities.specs.Views.{TypeTables, type_of, subtype_of};
ghost use Rattle.ada_entities.specs.Tables.{parts_of};
ghost use Rattle.ada_entities.specs.TypeTable.{tables};
ghost use Rattle.ada_entities.specs.EntityViews.{Tables};
ghost use Rattle.ada_judged.specs.JudgedView.{variable_of};
ghost use Rattle.ada_phrases.specs.DenotedView.{denotes};
ghost use Rattle.ada_phrases.specs.Attributes.{value_and_kind, extent_in, indexed_attribute, IsAttributeOfType, IsAttribute};

use crate::names::{Denoted, valued};
use ada_entities::{AdaType, Subtype, Types};
use ada_judged::{Indexing, Kind, StaticTree, Variable};
use ada_tree::{Expr, ScalarRange, Static};

/// The static value of an attribute, and what it fits.
#[derive(Clone, Copy)]
pub struct Attribute {
    pub value: Static,
    pub kind: Kind,
}

/// Whether a name, in lower case, is that of an attribute.
pub fn is_attribute(name: &[u8]) -> bool
    ensures { result ≡ rules.is_attribute name.now }
{
    name == "first".as_bytes() || name == "last".as_bytes() || name == "length".as_bytes()
}

/// The first or the last one of a range of values of a type.
fn limit_of(name: &[u8], of: AdaType, range: ScalarRange) -> Option<Attribute>
    ensures { (k : TypeTables) → option_map (value_and_kind k) result
        ≡ rules.limit_of name.now (type_of k of) (scalar_range_of range) }
{
    if name == "first".as_bytes() {
        return Some(Attribute {
            value: Static::First(range),
            kind: Kind::Of(of),
        });
    }
    if name == "last".as_bytes() {
        return Some(Attribute {
            value: Static::Last(range),
            kind: Kind::Of(of),
        });
    }
    None
}

/// An attribute of an array, where this is the subtype of its index.
fn extent_of(name: &[u8], index: Subtype) -> Option<Attribute>
    ensures { (k : TypeTables) → option_map (value_and_kind k) result ≡ rules.extent_of name.now (subtype_of k index) }
{
    if name == "length".as_bytes() {
        return Some(Attribute {
            value: Static::Length(index.range),
            kind: Kind::Universal,
        });
    }
    limit_of(name, index.of, index.range)
}

/// An attribute of an array, where these are the subtypes of its index and of its components.
fn attribute_of_array(name: &[u8], parts: Option<(Subtype, Subtype)>) -> Option<Attribute>
    ensures { (k : TypeTables) → option_map (value_and_kind k) result
        ≡ extent_in name.now (option_map (parts_of k) parts) }
{
    match parts {
        Some((index, _)) => extent_of(name, index),
        None => None,
    }
}

/// An attribute of a scalar subtype or of an array type (RM 3.5, 3.6.2).
fn attribute_of_type(types: &Types, name: &[u8], subtype: Subtype) -> Option<Attribute>
    ensures { IsAttributeOfType (tables types.now) name.now subtype result }
{
    match subtype.of {
        AdaType::Scalar(_) => limit_of(name, subtype.of, subtype.range),
        AdaType::Composite(_) => attribute_of_array(name, types.array_of(subtype.of)),
    }
}

/// A static attribute, where there is one.
fn static_attribute(found: Option<Attribute>) -> Option<Denoted>
    ensures { (k : Tables) → option_map (denotes k) result
        ≡ option_map rules.static_attribute (option_map (value_and_kind k.types) found) }
{
    match found {
        Some(attribute) => Some(Denoted::Value(valued(
            Expr::constant(attribute.value),
            attribute.kind,
            Some(StaticTree::value(attribute.value)),
            None,
        ))),
        None => None,
    }
}

/// An attribute of an object in whose name an index stands: it is no static value.
fn indexed_attribute(variable: Variable, found: Option<Attribute>) -> Option<Denoted>
    ensures { (k : Tables) → option_map (denotes k) result
        ≡ option_map (indexed_attribute (variable_of k variable)) (option_map (value_and_kind k.types) found) }
{
    match found {
        Some(attribute) => {
            let expr = Expr::attribute(variable.object, variable.parts, attribute.value);
            Some(Denoted::Value(valued(expr, attribute.kind, None, None)))
        }
        None => None,
    }
}

/// An attribute of an object (RM 3.6.2).
fn object_attribute(variable: Variable, found: Option<Attribute>) -> Option<Denoted>
    ensures { (k : Tables) → option_map (denotes k) result
        ≡ option_map (rules.object_attribute (variable_of k variable)) (option_map (value_and_kind k.types) found) }
{
    match variable.indexing {
        Indexing::Fixed => static_attribute(found),
        Indexing::Indexed => indexed_attribute(variable, found),
    }
}

impl Denoted {
    /// An attribute of what a name denotes, by its name in lower case (RM 4.1.4). None where it has no
    /// such attribute.
    pub fn attribute(self, types: &Types, name: &[u8]) -> Option<Denoted>
        ensures { IsAttribute (tables types.now) name.now self result }
    {
        match self {
            Denoted::Mark(_, subtype) => static_attribute(attribute_of_type(types, name, subtype)),
            Denoted::Variable(variable) => {
                let parts = types.array_of(variable.subtype.of);
                object_attribute(variable, attribute_of_array(name, parts))
            }
            other => {
                drop(other);
                None
            }
        }
    }
}
