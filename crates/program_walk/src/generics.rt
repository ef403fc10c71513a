//! Generics, and what is seen through instances (Ada RM 2012, 8.3, 12.1, 12.3).

ghost use Rattle.std.specs.Prelude.{◌≡◌, length, IfOk};
ghost use Rattle.ada_meaning.specs.Types.{of_instance};
ghost use Rattle.ada_tree.specs.View.{owner_of};
ghost use Rattle.ada_rules.specs.Entities.{key};
ghost use Rattle.program_walk.specs.Generics.{IsTypeSeen, AreFormals, IsInside};

use crate::symbols::Symbols;
use ada_entities::{AdaType, Entity, Interface, Region, key};
use ada_syntax::Identifier;
use ada_tree::Owner;
use std::alloc::{AllocError, Global};

impl Symbols {
    /// A type as it is seen through an instance.
    fn type_through(&self, of: AdaType, instance: u32) -> Result<AdaType, AllocError>
        ensures { IfOk result (IsTypeSeen self.now of (of_instance instance)) }
    {
        let through = self.types.type_seen(of, instance);
        if !self.extent.knows_instance(instance)
            || !self.extent.knows_type(of)
            || !self.extent.knows_type(through)
        {
            return Err(AllocError);
        }
        Ok(through)
    }

    /// A type as it is seen: in its own text, or through an instance (RM 12.3). A type or an instance that
    /// leads nowhere has no memory.
    pub fn type_seen(&self, of: AdaType, seen: Owner) -> Result<AdaType, AllocError>
        ensures { IfOk result (IsTypeSeen self.now of (owner_of seen)) }
    {
        match seen {
            Owner::Here => Ok(of),
            Owner::Instance(instance) => self.type_through(of, instance),
        }
    }

    /// The formals of a generic, by the number of its unit (RM 12.1); none of what is no generic.
    pub fn formals_of(&self, unit: u32) -> Option<&Region>
        ensures { AreFormals self.now unit result }
    {
        match self.units.get(unit) {
            Some(Interface::Generic(formals, _)) => Some(formals),
            _ => None,
        }
    }

    /// How many units the library has.
    pub fn count_units(&self) -> usize
        ensures { result ≡ length self.now.units }
    {
        self.units.len()
    }

    /// What a name denotes among the declarations of the innermost region (RM 8.3).
    pub fn find_inside(
        &self,
        alloc: Global,
        name: &Identifier,
    ) -> Result<Option<Entity>, AllocError>
        ensures { IfOk result (IsInside self.now (key name.now)) }
    {
        let name = key(alloc, name)?;
        Ok(self.regions.find_inside(name.as_slice()))
    }
}
