//! What the walk over a program notes of static values (Ada RM 2012, 3.3.1, 4.9).

ghost use Rattle.std.specs.Prelude.{◌≡◌, option_map, IfOk, IfSome, OnOk};
ghost use Rattle.ada_tree.specs.View.{scalar_range_of, static_of, static_value_of};
ghost use Rattle.ada_rules.specs.Types.{base};
ghost use Rattle.ada_rules.specs.Environment.{State, beginning_state};
ghost use Rattle.ada_rules.specs.Expressions.{entered_constant, value_named};
ghost use Rattle.ada_judged.specs.ada_entities.specs.EntityViews.{Tables, constant_of};
ghost use Rattle.ada_demands.specs.StaticsViews.{noted, own_value, Demands, Gives, Instantiates, GivesChain, Knows};

use crate::constants::GenericConstants;
use crate::demand::{Asked, Demand, Made, Test};
use crate::facts::Instances;
use crate::spans::base_range;
use ada_judged::{ConstantValue, StaticKind, StaticOperand, StaticTree};
use ada_tree::{GenericConstant, Operator, Owner, ScalarRange, Static, StaticValue};
use cov_base::Pos;
use std::alloc::{AllocError, Global};

/// What was demanded of static values, and the constants of generics.
#[derive(Drop)]
pub struct Statics {
    pub demands: Vec<Asked>,
    pub constants: GenericConstants,
}

/// What is a value of its own text already.
fn own_value(value: Static) -> Option<StaticValue>
    ensures { result ≡ own_value value }
{
    match value {
        Static::Value(Owner::Here, value) => Some(value),
        _ => None,
    }
}

/// The value of a constant as an expression; of one without a value, an expression that has none. No
/// expression stands for one without a value that is seen through an instance: there is none, since it is
/// declared in a subprogram.
fn as_expression(constant: ConstantValue) -> Option<Static>
    ensures { IfSome result (λ e. static_of e ≡ constant_of constant) }
{
    match (constant.owner, constant.value) {
        (owner, Some(value)) => Some(Static::Value(owner, value)),
        (Owner::Here, None) => {
            let zero = StaticValue::Number(0);
            Some(Static::Operation(Operator::Divide, zero, zero))
        }
        (Owner::Instance(_), None) => None,
    }
}

impl Statics {
    /// Nothing was met so far.
    pub fn new(alloc: Global) -> Statics
        ensures { (k : Tables) → noted k result beginning_state ≡ beginning_state }
    {
        Statics {
            demands: Vec::new(alloc),
            constants: GenericConstants::new(alloc),
        }
    }

    /// Notes a demand of the construct with this first token, in the text of the generic whose unit has
    /// this number.
    pub fn demand(&mut self, pos: Pos, generic: Option<u32>, test: Test) -> Result<(), AllocError>
        ensures { OnOk result (Demands self.old self.new pos generic test) }
    {
        self.demands
            .push(Asked::Demand(Demand { pos, generic, test }))?;
        Ok(())
    }

    /// Notes that an instance was made.
    pub fn instantiate(&mut self, made: Made) -> Result<(), AllocError>
        ensures { OnOk result (Instantiates self.old self.new made) }
    {
        self.demands.push(Asked::Instantiated(made))?;
        Ok(())
    }

    /// Enters a constant of a generic, by its subtype and its value, and answers what it is called in the
    /// text (RM 3.3.1).
    pub fn enter_constant(
        &mut self,
        alloc: Global,
        generic: u32,
        range: ScalarRange,
        value: Static,
    ) -> Result<StaticValue, AllocError>
        ensures { IfOk result (Gives self.old self.new
            (entered_constant generic (scalar_range_of range) (static_of value))) }
    {
        let number = self.constants.add(
            alloc,
            GenericConstant {
                generic,
                value,
                range,
            },
        )?;
        Ok(StaticValue::Constant(number))
    }

    /// Enters a value of the base range.
    fn enter_value(
        &mut self,
        alloc: Global,
        generic: u32,
        value: Static,
    ) -> Result<StaticValue, AllocError>
        ensures { IfOk result (Gives self.old self.new (entered_constant generic base (static_of value))) }
    {
        self.enter_constant(alloc, generic, base_range(), value)
    }

    /// A static expression that is written out, in the text of a generic: by a name, as a constant of the
    /// generic, where it is no value already.
    fn expression_named(
        &mut self,
        alloc: Global,
        generic: u32,
        value: Static,
    ) -> Result<StaticValue, AllocError>
        ensures { IfOk result (Gives self.old self.new (value_named generic (static_of value))) }
    {
        match own_value(value) {
            Some(value) => Ok(value),
            None => self.enter_value(alloc, generic, value),
        }
    }

    /// The value of a constant, in the text of a generic. One that no expression stands for has no memory.
    fn constant_named(
        &mut self,
        alloc: Global,
        generic: u32,
        constant: ConstantValue,
    ) -> Result<StaticValue, AllocError>
        ensures { IfOk result (Gives self.old self.new (value_named generic (constant_of constant))) }
    {
        match as_expression(constant) {
            Some(value) => self.expression_named(alloc, generic, value),
            None => Err(AllocError),
        }
    }

    /// A static expression, in the text of a generic: what an operator or an attribute gives, or another
    /// instance has, is a constant of the generic, so that no value is written out twice.
    #[cycle(named)]
    pub fn value_named(
        &mut self,
        alloc: Global,
        generic: u32,
        tree: &StaticTree,
    ) -> Result<StaticValue, AllocError>
        ensures { IfOk result (Gives self.old self.new (value_named generic tree.now)) }
    {
        match &tree.kind {
            StaticKind::Value(value) => self.expression_named(alloc, generic, *value),
            StaticKind::Constant(constant) => self.constant_named(alloc, generic, *constant),
            StaticKind::Signed(sign, operand) => {
                let operand = self.value_named(alloc, generic, operand)?;
                self.enter_value(alloc, generic, Static::Signed(*sign, operand))
            }
            StaticKind::Operations(first, others) => {
                let first = self.value_named(alloc, generic, first)?;
                self.chain_named(alloc, generic, first, others.as_slice())
            }
        }
    }

    /// Operators and what stands right of them behind a value, from the left, in the text of a generic.
    #[cycle(named)]
    fn chain_named(
        &mut self,
        alloc: Global,
        generic: u32,
        first: StaticValue,
        others: &[StaticOperand],
    ) -> Result<StaticValue, AllocError>
        ensures { IfOk result (GivesChain self.old self.new generic first others.now) }
    {
        let mut value = first;
        for other in others {
            let operand = self.value_named(alloc, generic, &other.operand)?;
            value = self.enter_value(
                alloc,
                generic,
                Static::Operation(other.operator, value, operand),
            )?;
        }
        Ok(value)
    }

    /// A static expression as the typed program has it: in no generic its value. Where it has none, its
    /// demand is not met, and it stands as 0.
    pub fn static_known(
        &mut self,
        alloc: Global,
        instances: &Instances,
        generic: Option<u32>,
        tree: &StaticTree,
    ) -> Result<StaticValue, AllocError>
        ensures { IfOk result (Knows self.old self.new instances.now generic tree.now) }
    {
        match generic {
            Some(generic) => self.value_named(alloc, generic, tree),
            None => Ok(StaticValue::Number(instances.tree(0, tree).unwrap_or(0))),
        }
    }
}
