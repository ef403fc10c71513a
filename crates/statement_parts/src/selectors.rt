//! Selectors of case statements (Ada RM 2012, 5.4).

ghost use Rattle.std.specs.Prelude.{◌≡◌, option_map, unwrap_or, IfOk};
ghost use Rattle.ada_rules.specs.Entities.{type_values};
ghost use Rattle.ada_rules.specs.Statements as rules;
ghost use Rattle.ada_entities.specs.EntityViews.{Tables, values_of};
ghost use Rattle.ada_entities.specs.Views.{scalar_type_of};
ghost use Rattle.ada_judged.specs.JudgedView.{judged_of};
ghost use Rattle.object_values.specs.program_walk.specs.Sites.{ComesTo};
ghost use Rattle.statement_parts.specs.Selectors.{selector_in};

use crate::handing::paired;
use crate::typing::typed;
use ada_demands::TypeValues;
use ada_entities::{AdaType, Refusal, ScalarType, Subtype, Values};
use ada_judged::Judged;
use ada_phrases::{Decisions, Role};
use ada_syntax::Expr as TextExpr;
use ada_tree::Expr;
use cov_base::Failure;
use object_values::Site;
use std::alloc::{AllocError, Global};

/// The selector of a case statement: its expression, its type, and the values that choices name.
#[derive(Drop)]
pub struct Selector {
    pub expr: Expr,
    pub of: AdaType,
    pub values: Values,
}

/// What the step of names goes on with.
fn any_selector() -> Selector
    ensures { (k : Tables) → selector_in k result ≡ rules.any_selector }
{
    let subtype = Subtype::integer();
    Selector {
        expr: Expr::literal(0),
        of: subtype.of,
        values: Values::Within(subtype.range),
    }
}

/// The values of an object, a call or a conversion, and else those of the type. An enumeration with more
/// than 2^31 - 1 literals has no memory.
fn values_or(values: Option<Values>, of: ScalarType) -> Result<Values, AllocError>
    ensures { IfOk result (λ v. (k : Tables) → values_of k v
        ≡ unwrap_or (option_map (values_of k) values) (type_values (scalar_type_of of))) }
{
    match values {
        Some(values) => Ok(values),
        None => Ok(TypeValues::of(of)?.values()),
    }
}

/// The selector that an expression is, where it is discrete.
fn selector_of(value: Judged) -> Result<Option<Selector>, AllocError>
    ensures { IfOk result (λ o. (k : Tables) → option_map (selector_in k) o ≡ rules.selector_of (judged_of k value)) }
{
    let of = value.kind.settled();
    let AdaType::Scalar(scalar) = of else {
        drop(value);
        return Ok(None);
    };
    let values = values_or(value.values, scalar);
    drop(value.known);
    let (expr, values) = paired(value.form.into_expr(), values)?;
    Ok(Some(Selector { expr, of, values }))
}

/// The selector of a case statement. Refused at the rules' own place.
#[tactic(auto, using(crate::proofs::Ends::parts))]
pub fn find_selector(
    alloc: Global,
    site: &Site<'_>,
    decisions: &mut Decisions,
    expr: &TextExpr,
) -> Result<Selector, Failure<Refusal>>
    ensures { ComesTo selector_in site.now decisions.old decisions.new
        (λ env s. (rules.selector env s expr.now).answer) result }
{
    let value = site.judged(alloc, Role::Itself, decisions, expr)?;
    let found = selector_of(value)?;
    typed(site.step, expr.pos(), any_selector(), found)
}
