//! Numerals, parentheses and operators (Ada RM 2012, 2.4, 4.4, 4.5).

ghost use Rattle.std.specs.Prelude.{◌≡◌, option_map, IfOk};
ghost use Rattle.ada_meaning.specs.Types.{static_sign};
ghost use Rattle.ada_tree.specs.View.{sign_of};
ghost use Rattle.ada_entities.specs.ada_rules.specs.Denoted as rules;
ghost use Rattle.ada_entities.specs.EntityViews as entities;
ghost use Rattle.ada_entities.specs.EntityViews.{Tables};
ghost use Rattle.ada_judged.specs.JudgedView.{variable_of, form_of, judged_of, signed_integer, complement_of_boolean};

use crate::handing::both;
use crate::judged::{Form, Indexing, Judged, Spelling, Variable};
use crate::kind::Kind;
use crate::static_tree::StaticTree;
use ada_entities::DeclaredObject;
use ada_syntax::UnaryOperator;
use ada_tree::{Expr, Owner, Sign, Static, StaticValue, Test, TestKind};
use cov_base::Pos;
use std::alloc::{AllocError, Global};

impl Variable {
    /// A declared object as a whole.
    pub fn whole(alloc: Global, object: DeclaredObject) -> Variable
        ensures { (k : Tables) → variable_of k result ≡ entities.variable_of k object }
    {
        Variable {
            object: object.object,
            parts: Vec::new(alloc),
            subtype: object.subtype,
            access: object.access,
            indexing: Indexing::Fixed,
            known: object.known,
            values: object.values,
        }
    }
}

impl Form {
    /// The expression: an expression that is no operand of a decision is no test.
    pub fn into_expr(self) -> Expr
        ensures { result ≡ rules.expr_of_form (form_of self) }
    {
        match self {
            Form::Plain(expr) => expr,
            Form::Test(test) => {
                drop(test);
                Expr::literal(0)
            }
            Form::Object(variable) => Expr::part(variable.object, variable.parts),
        }
    }
}

impl Judged {
    /// The expression of its form.
    pub(crate) fn into_expr(self) -> Expr
        ensures { result ≡ rules.expr_of_form (form_of self.form) }
    {
        self.form.into_expr()
    }

    /// A numeral at this place: one of the base range of integers (RM 2.4, 3.5.4).
    pub fn numeral(pos: Pos, value: u32) -> Option<Judged>
        ensures { (k : Tables) → option_map (judged_of k) result ≡ rules.numeral_of pos value }
    {
        match i32::try_from(value) {
            Ok(number) => Some(Judged {
                form: Form::Plain(Expr::literal(number)),
                at: pos,
                kind: Kind::Universal,
                known: Some(StaticTree::value(Static::Value(
                    Owner::Here,
                    StaticValue::Number(number),
                ))),
                values: None,
                spelling: Spelling::Other,
            }),
            Err(_) => None,
        }
    }

    /// The value of an object or of a part of one, whose name stands at this place.
    pub fn read(pos: Pos, variable: Variable) -> Judged
        ensures { (k : Tables) → judged_of k result ≡ rules.standing_at pos (rules.read_of (variable_of k variable)) }
    {
        Judged {
            at: pos,
            kind: Kind::Of(variable.subtype.of),
            known: StaticTree::of_constant(variable.known),
            values: Some(variable.values),
            spelling: Spelling::Name,
            form: Form::Object(variable),
        }
    }

    /// An expression in parentheses: it is no name, and no object, call or conversion.
    pub fn enclosed(self) -> Judged
        ensures { (k : Tables) → judged_of k result ≡ rules.enclosed (judged_of k self) }
    {
        Judged {
            values: None,
            spelling: Spelling::Other,
            ..self
        }
    }
}

/// A test under `not`: two in succession cancel.
pub(crate) fn negated(alloc: Global, test: Test) -> Result<Test, AllocError>
    ensures { IfOk result (λ t. t ≡ rules.negated test) }
{
    match test.into_kind() {
        TestKind::Negation(inner) => Ok(Box::into_inner(inner)),
        kind => Test::negation(alloc, Test { kind }),
    }
}

impl Form {
    /// The form under `not`.
    fn complemented(self, alloc: Global) -> Result<Form, AllocError>
        ensures { IfOk result (λ f. form_of f ≡ rules.complemented (form_of self)) }
    {
        match self {
            Form::Test(test) => Ok(Form::Test(negated(alloc, test)?)),
            Form::Plain(expr) => Ok(Form::Plain(Expr::complement(alloc, expr)?)),
            Form::Object(variable) => {
                let expr = Expr::part(variable.object, variable.parts);
                Ok(Form::Plain(Expr::complement(alloc, expr)?))
            }
        }
    }
}

/// A static value under an operator with one operand, where there is one.
fn known_signed(
    alloc: Global,
    sign: Sign,
    known: Option<StaticTree>,
) -> Result<Option<StaticTree>, AllocError>
    ensures { IfOk result (λ o. o ≡ option_map (static_sign (sign_of sign)) known) }
{
    match known {
        Some(value) => Ok(Some(StaticTree::signed(alloc, sign, value)?)),
        None => Ok(None),
    }
}

impl Judged {
    /// An operator on one integer, which stands at this place (RM 4.5.4, 4.5.6).
    fn signed(self, alloc: Global, pos: Pos, sign: Sign) -> Result<Judged, AllocError>
        ensures { IfOk result (λ x. (k : Tables) → judged_of k x ≡ rules.signed pos (judged_of k self) (sign_of sign)) }
    {
        let known = known_signed(alloc, sign, self.known);
        let expr = Expr::signed(alloc, sign, self.form.into_expr());
        let (known, expr) = both(known, expr)?;
        Ok(Judged {
            form: Form::Plain(expr),
            at: pos,
            kind: self.kind,
            known,
            values: None,
            spelling: Spelling::Other,
        })
    }

    /// `not` (RM 4.5.6).
    fn complement(self, alloc: Global) -> Result<Judged, AllocError>
        ensures { IfOk result (λ x. (k : Tables) → judged_of k x ≡ rules.complement_of (judged_of k self)) }
    {
        let form = self.form.complemented(alloc)?;
        Ok(Judged {
            form,
            at: self.at,
            kind: self.kind,
            known: None,
            values: None,
            spelling: Spelling::Other,
        })
    }
}

/// The sign of an operator that has one.
fn sign_of(operator: UnaryOperator) -> Option<Sign>
    ensures { option_map sign_of result ≡ rules.sign_of operator }
{
    match operator {
        UnaryOperator::Plus => Some(Sign::Plus),
        UnaryOperator::Minus => Some(Sign::Minus),
        UnaryOperator::Abs => Some(Sign::Absolute),
        UnaryOperator::Not => None,
    }
}

impl Judged {
    /// An operator with one operand, which stands at this place (RM 4.5.4, 4.5.6). None where the
    /// operand is of another kind.
    pub fn unary(
        self,
        alloc: Global,
        pos: Pos,
        operator: UnaryOperator,
    ) -> Result<Option<Judged>, AllocError>
        ensures { IfOk result (λ o. (k : Tables) → option_map (judged_of k) o ≡ rules.unary_of pos operator (judged_of k self)) }
    {
        match sign_of(operator) {
            Some(sign) => self.signed_integer(alloc, pos, sign),
            None => self.complement_of_boolean(alloc),
        }
    }

    /// An operator on what has to be an integer.
    fn signed_integer(
        self,
        alloc: Global,
        pos: Pos,
        sign: Sign,
    ) -> Result<Option<Judged>, AllocError>
        ensures { IfOk result (λ o. (k : Tables) → option_map (judged_of k) o ≡ signed_integer pos (sign_of sign) (judged_of k self)) }
    {
        if !self.kind.is_integral() {
            drop(self);
            return Ok(None);
        }
        Ok(Some(self.signed(alloc, pos, sign)?))
    }

    /// `not` of what has to be Boolean.
    fn complement_of_boolean(self, alloc: Global) -> Result<Option<Judged>, AllocError>
        ensures { IfOk result (λ o. (k : Tables) → option_map (judged_of k) o ≡ complement_of_boolean (judged_of k self)) }
    {
        if !self.kind.is_boolean() {
            drop(self);
            return Ok(None);
        }
        Ok(Some(self.complement(alloc)?))
    }
}
