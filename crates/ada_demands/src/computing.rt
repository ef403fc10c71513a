//! The constants of a generic in an instance (Ada RM 2012, 3.3.1, 4.9).

ghost use Rattle.std.specs.Prelude.{◌≡◌, [], map, IfOk, OnOk, option_map};
ghost use Rattle.ada_meaning.specs.Statics as statics;
ghost use Rattle.ada_meaning.specs.Statics.{constant_values, constants_of, value_of_constant};
ghost use Rattle.ada_tree.specs.Programs.{bounds_of, constant_of};
ghost use Rattle.ada_rules.specs.Statics.{instance_values, with_constants};
ghost use Rattle.ada_rules.specs.Units.{all_with_constants, facts_set};
ghost use Rattle.ada_demands.specs.FactViews.{facts_of};
ghost use Rattle.ada_demands.specs.KnownViews.{known_values};

use crate::constants::GenericConstants;
use crate::facts::{Facts, Instances};
use crate::known::Known;
use ada_tree::{GenericConstant, Range};
use cov_base::{Seq, number_behind};
use std::alloc::{AllocError, Global};

/// A value, where it lies within bounds.
fn within(value: Option<i32>, range: Option<Range>) -> Option<i32>
    ensures { result ≡ statics.within value (option_map bounds_of range) }
{
    match (value, range) {
        (Some(value), Some(range)) if range.first <= value && value <= range.last => Some(value),
        _ => None,
    }
}

impl Known<'_> {
    /// The value of the next constant of the instance: that of its expression, where it lies in the
    /// constant's subtype.
    fn next_constant(&self, constant: GenericConstant) -> Option<i32>
        ensures { result ≡ value_of_constant (known_values self.now) self.now.instance (constant_of constant) }
    {
        let value = self.number(self.instance, constant.value);
        within(value, self.bounds(self.instance, constant.range))
    }
}

impl Instances {
    /// The values of a generic's constants in the instance with this number, in order: none where a
    /// constant has no static value there. Each is computed once, from those before it.
    fn constants_in(
        &self,
        alloc: Global,
        constants: &GenericConstants,
        instance: u32,
        generic: u32,
    ) -> Result<Seq<Option<i32>>, AllocError>
        ensures { IfOk result (λ xs. xs
            ≡ constant_values (instance_values self.now) instance []
            (constants_of generic (map constant_of constants.now))) }
    {
        let mut values = Vec::new(alloc);
        for constant in constants.of(generic) {
            let known = Known {
                instances: self,
                instance,
                constants: values.as_slice(),
            };
            let value = known.next_constant(*constant);
            values.push(value)?;
        }
        Ok(Seq::from(values))
    }

    /// What an instance has, with the values of its generic's constants so far.
    fn with_constants(
        &self,
        alloc: Global,
        constants: &GenericConstants,
        number: u32,
        facts: &Facts,
    ) -> Result<Facts, AllocError>
        ensures { IfOk result (λ f. facts_of f
            ≡ with_constants self.now (map constant_of constants.now) number (facts_of facts.now)) }
    {
        let values = self.constants_in(alloc, constants, number, facts.generic)?;
        let formals = Vec::from_slice(alloc, facts.formals.as_slice())?;
        Ok(Facts {
            generic: facts.generic,
            formals: Seq::from(formals),
            constants: values,
        })
    }

    /// Lets an instance have these, with the values of its generic's constants so far; a number without an
    /// instance has no effect.
    pub fn make(
        &mut self,
        alloc: Global,
        constants: &GenericConstants,
        number: u32,
        facts: Facts,
    ) -> Result<(), AllocError>
        ensures { OnOk result (self.new
            ≡ facts_set self.old number (facts_of facts) (map constant_of constants.now)) }
    {
        self.set(number, facts);
        let Some(made) = self.placed(number) else {
            return Ok(());
        };
        let complete = self.with_constants(alloc, constants, number, made)?;
        self.set(number, complete);
        Ok(())
    }

    /// The same instances with the values of all constants of their generics. One that is not among the
    /// first 2^32 - 1 has no memory.
    pub fn with_all_constants(
        &self,
        alloc: Global,
        constants: &GenericConstants,
    ) -> Result<Instances, AllocError>
        ensures { IfOk result (λ i. i ≡ all_with_constants self.now (map constant_of constants.now) 1 self.now) }
    {
        let mut resolved = Instances::new(alloc);
        let mut number = 0u32;
        for facts in self.as_slice() {
            number = number_behind(number)?;
            resolved.add(self.with_constants(alloc, constants, number, facts)?)?;
        }
        Ok(resolved)
    }
}
