//! Operators with two operands (Ada RM 2012, 4.5.2, 4.5.3, 4.5.5).

ghost use Rattle.std.specs.Prelude.{◌≡◌, option_map, IfOk};
ghost use Rattle.ada_meaning.specs.Tree as tree;
ghost use Rattle.ada_tree.specs.View.{operator_of, relation_of, with_operands};
ghost use Rattle.ada_entities.specs.ada_rules.specs.Denoted as rules;
ghost use Rattle.ada_entities.specs.EntityViews.{Tables};
ghost use Rattle.ada_judged.specs.Views.{kind_of};
ghost use Rattle.ada_judged.specs.JudgedView.{judged_of, operation_of_integers, relation_of_discrete};

use crate::handing::both;
use crate::judged::{Form, Judged, Spelling};
use crate::kind::Kind;
use crate::static_tree::StaticTree;
use ada_entities::AdaType;
use ada_syntax::{BinaryOperator, RelationalOperator};
use ada_tree::{Expr, ExprKind, Operand, Operator, Relation};
use cov_base::Pos;
use std::alloc::{AllocError, Global};

/// The operator of the typed program.
fn operator_of(operator: BinaryOperator) -> Operator
    ensures { operator_of result ≡ rules.operator_of operator }
{
    match operator {
        BinaryOperator::Add => Operator::Add,
        BinaryOperator::Subtract => Operator::Subtract,
        BinaryOperator::Multiply => Operator::Multiply,
        BinaryOperator::Divide => Operator::Divide,
        BinaryOperator::Mod => Operator::Modulus,
        BinaryOperator::Rem => Operator::Remainder,
    }
}

/// The relation of the typed program.
fn relation_of(relation: RelationalOperator) -> Relation
    ensures { relation_of result ≡ rules.relation_of relation }
{
    match relation {
        RelationalOperator::Equal => Relation::Equal,
        RelationalOperator::NotEqual => Relation::NotEqual,
        RelationalOperator::Less => Relation::Less,
        RelationalOperator::LessOrEqual => Relation::LessOrEqual,
        RelationalOperator::Greater => Relation::Greater,
        RelationalOperator::GreaterOrEqual => Relation::GreaterOrEqual,
    }
}

/// The first operand of a chain, and the operators behind it: what is no chain is an operand alone.
fn opened(alloc: Global, expr: Expr) -> (Expr, Vec<Operand>)
    ensures { with_operands result.0 result.1.items ≡ expr }
{
    match expr.into_kind() {
        ExprKind::Operations(first, others) => (Box::into_inner(first), others),
        kind => (Expr { kind }, Vec::new(alloc)),
    }
}

/// An operator and its two operands: a chain grows in place.
fn operation(alloc: Global, operator: Operator, left: Expr, right: Expr) -> Result<Expr, AllocError>
    ensures { IfOk result (λ e. e ≡ tree.operation (operator_of operator) left right) }
{
    let operand = Operand {
        operator,
        operand: right,
    };
    let (first, mut others) = opened(alloc, left);
    others.push(operand)?;
    Expr::operations(alloc, first, others)
}

/// The static value of an operation, where both operands have one.
fn known_operation(
    alloc: Global,
    operator: Operator,
    left: Option<StaticTree>,
    right: Option<StaticTree>,
) -> Result<Option<StaticTree>, AllocError>
    ensures { IfOk result (λ o. o ≡ rules.known_of_both (operator_of operator) left right) }
{
    match left.zip(right) {
        Some((left, right)) => Ok(Some(StaticTree::operation(alloc, operator, left, right)?)),
        None => Ok(None),
    }
}

impl Judged {
    /// An operation of two operands that fit this kind together: integers.
    fn operation(
        self,
        alloc: Global,
        pos: Pos,
        operator: Operator,
        right: Judged,
        kind: Kind,
    ) -> Result<Option<Judged>, AllocError>
        ensures { IfOk result (λ o. (k : Tables) → option_map (judged_of k) o
            ≡ operation_of_integers pos (operator_of operator) (judged_of k self) (judged_of k right) (kind_of k.types kind)) }
    {
        if !kind.is_integral() {
            drop((self, right));
            return Ok(None);
        }
        let known = known_operation(alloc, operator, self.known, right.known);
        let expr = operation(
            alloc,
            operator,
            self.form.into_expr(),
            right.form.into_expr(),
        );
        let (known, expr) = both(known, expr)?;
        Ok(Some(Judged {
            form: Form::Plain(expr),
            at: pos,
            kind,
            known,
            values: None,
            spelling: Spelling::Other,
        }))
    }

    /// An operator and its two operands, of one integer type, which stand at this place. None where
    /// they are of other kinds.
    pub fn binary(
        self,
        alloc: Global,
        pos: Pos,
        operator: BinaryOperator,
        right: Judged,
    ) -> Result<Option<Judged>, AllocError>
        ensures { IfOk result (λ o. (k : Tables) → option_map (judged_of k) o ≡ rules.binary_of pos operator (judged_of k self) (judged_of k right)) }
    {
        match self.kind.common(right.kind) {
            Some(kind) => self.operation(alloc, pos, operator_of(operator), right, kind),
            None => {
                drop((self, right));
                Ok(None)
            }
        }
    }

    /// A relation of two operands that fit this kind together: a discrete type.
    fn relation(
        self,
        alloc: Global,
        pos: Pos,
        relation: Relation,
        right: Judged,
        kind: Kind,
    ) -> Result<Option<Judged>, AllocError>
        ensures { IfOk result (λ o. (k : Tables) → option_map (judged_of k) o
            ≡ relation_of_discrete pos (relation_of relation) (judged_of k self) (judged_of k right) (kind_of k.types kind)) }
    {
        if !kind.is_discrete() {
            drop((self, right));
            return Ok(None);
        }
        let expr = Expr::relation(alloc, relation, self.into_expr(), right.into_expr())?;
        Ok(Some(Judged {
            form: Form::Plain(expr),
            at: pos,
            kind: Kind::Of(AdaType::boolean()),
            known: None,
            values: None,
            spelling: Spelling::Other,
        }))
    }

    /// A relation of two operands, of one discrete type, which stand at this place. None where they are
    /// of other kinds.
    pub fn related(
        self,
        alloc: Global,
        pos: Pos,
        relation: RelationalOperator,
        right: Judged,
    ) -> Result<Option<Judged>, AllocError>
        ensures { IfOk result (λ o. (k : Tables) → option_map (judged_of k) o ≡ rules.related pos relation (judged_of k self) (judged_of k right)) }
    {
        match self.kind.common(right.kind) {
            Some(kind) => self.relation(alloc, pos, relation_of(relation), right, kind),
            None => {
                drop((self, right));
                Ok(None)
            }
        }
    }
}
