//! What names denote (Ada RM 2012, 4.1).

ghost use Rattle.std.specs.Prelude.{◌≡◌, option_map};
ghost use Rattle.ada_tree.specs.View.{static_by, static_value_of};
ghost use Rattle.ada_rules.specs.Denoted as rules;
ghost use Rattle.ada_entities.specs.Views.{type_of, subtype_of};
ghost use Rattle.ada_entities.specs.EntityViews.{Tables, entity_of, values_of};
ghost use Rattle.ada_judged.specs.Views.{kind_of};
ghost use Rattle.ada_judged.specs.JudgedView.{judged_of};
ghost use Rattle.ada_judged.specs.PartViews.{as_denoted};
ghost use Rattle.ada_phrases.specs.DenotedView.{denotes, literal_of, formal_of};

use ada_entities::{AdaType, Entity, Identity, RoutineName, Subtype, Values};
use ada_judged::{Form, Judged, Kind, Spelling, StaticTree, Variable};
use ada_tree::{Actual, ExceptionName, Expr, Owner, Static, StaticValue};
use cov_base::Pos;
use std::alloc::Global;

/// What a name denotes.
#[derive(Drop)]
pub enum Denoted {
    /// A type or subtype.
    Mark(Identity, Subtype),
    /// A value that is no object.
    Value(Judged),
    /// An object, or a part of one.
    Variable(Variable),
    Routine(RoutineName),
    Call(RoutineName, Vec<Actual>),
    Exception(ExceptionName),
    /// A package, a generic or an instance, by the number of its unit.
    Unit(u32),
    TestIo,
    /// What no rule on types takes.
    Thing,
}

/// The place of what has no place of its own yet.
const NOWHERE: Pos = Pos {
    file: 0,
    line: 1,
    col: 1,
};

/// A value of a type, of an expression that is no object.
pub(crate) fn valued(
    expr: Expr,
    kind: Kind,
    known: Option<StaticTree>,
    values: Option<Values>,
) -> Judged
    ensures { (k : Tables) → judged_of k result
        ≡ rules.valued expr (kind_of k.types kind) known (option_map (values_of k) values) }
{
    Judged {
        form: Form::Plain(expr),
        at: NOWHERE,
        kind,
        known,
        values,
        spelling: Spelling::Other,
    }
}

/// What the step of names goes on with in place of an expression.
pub fn any_judged() -> Judged
    ensures { (k : Tables) → judged_of k result ≡ rules.any_judged }
{
    valued(Expr::literal(0), Kind::Universal, None, None)
}

/// An enumeration literal, by its position number (RM 3.5.1).
fn literal(of: AdaType, position: i32) -> Judged
    ensures { (k : Tables) → judged_of k result ≡ literal_of (type_of k.types of) position }
{
    let known = StaticTree::value(Static::Value(Owner::Here, StaticValue::Number(position)));
    valued(Expr::literal(position), Kind::Of(of), Some(known), None)
}

/// The value of a formal object (RM 12.4).
fn formal_object(subtype: Subtype, owner: Owner, value: StaticValue) -> Judged
    ensures { (k : Tables) → judged_of k result
        ≡ formal_of (subtype_of k.types subtype) (static_by owner (static_value_of value)) }
{
    let value = Static::Value(owner, value);
    valued(
        Expr::constant(value),
        Kind::Of(subtype.of),
        Some(StaticTree::value(value)),
        Some(Values::Within(subtype.range)),
    )
}

impl Denoted {
    /// What the name of an entity denotes.
    pub fn of(alloc: Global, entity: Entity) -> Denoted
        ensures { (k : Tables) → denotes k result ≡ rules.denoted_of (entity_of k entity) }
    {
        match entity {
            Entity::Hidden | Entity::Component => Denoted::Thing,
            Entity::Mark(identity, subtype) => Denoted::Mark(identity, subtype),
            Entity::Literal(of, position) => Denoted::Value(literal(of, position)),
            Entity::Object(object) => Denoted::Variable(Variable::whole(alloc, object)),
            Entity::FormalObject(subtype, owner, value) => {
                Denoted::Value(formal_object(subtype, owner, value))
            }
            Entity::Routine(routine) => Denoted::Routine(routine),
            Entity::Exception(exception) => Denoted::Exception(exception),
            Entity::TestIo => Denoted::TestIo,
            Entity::Unit(unit) => Denoted::Unit(unit),
        }
    }
}

/// An object or a part of one, where there is one.
pub(crate) fn as_variable(found: Option<Variable>) -> Option<Denoted>
    ensures { (k : Tables) → option_map (denotes k) result ≡ as_denoted k found }
{
    match found {
        Some(variable) => Some(Denoted::Variable(variable)),
        None => None,
    }
}

/// A value, where there is one.
pub(crate) fn as_value(found: Option<Judged>) -> Option<Denoted>
    ensures { (k : Tables) → option_map (denotes k) result ≡ option_map rules.a_value (option_map (judged_of k) found) }
{
    match found {
        Some(value) => Some(Denoted::Value(value)),
        None => None,
    }
}
