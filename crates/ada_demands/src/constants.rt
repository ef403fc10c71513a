//! The constants of generics (Ada RM 2012, 3.3.1, 4.9).

ghost use Rattle.std.specs.Prelude.{◌≡◌, ◌<◌, ℕ, [], ◌∷◌, ◌++◌, length, map, IfOk, OnErr, OnOk};
ghost use Rattle.ada_meaning.specs.Statics.{constants_of};
ghost use Rattle.ada_tree.specs.Programs.{constant_of};
ghost use Rattle.ada_demands.specs.Grouping.{group_at};

use ada_tree::GenericConstant;
use cov_base::numbered;
use std::alloc::{AllocError, Global};
use std::marker::Model;

/// The constants of all generics: in the order in which they came, and by the number of their generic's
/// unit. Contracts see them in order.
#[derive(Drop)]
pub struct GenericConstants {
    declared: Vec<GenericConstant>,
    groups: Vec<Vec<GenericConstant>>,
}

impl Model for GenericConstants {
    ghost use Rattle.std.specs.Prelude.{List};
    ghost use Rattle.ada_tree.specs.declared.program.GenericConstant.{GenericConstant};
    ghost use Rattle.ada_demands.specs.Grouping.{AreGrouped};

    ghost Value = { List GenericConstant };

    ghost view = { λ c. c.declared.items };

    ghost invariant = { λ c. AreGrouped c.declared.items c.groups.items };
}

/// Lets there be a group at this place: an empty one, where there was none.
fn make_room(
    alloc: Global,
    groups: &mut Vec<Vec<GenericConstant>>,
    index: usize,
) -> Result<(), AllocError>
    ensures same { (g : ℕ) → group_at groups.new.items g ≡ group_at groups.old.items g }
    ensures there { OnOk result (index < length groups.new.items) }
{
    while groups.as_slice().len() <= index {
        groups.push(Vec::new(alloc))?;
    }
    Ok(())
}

/// Adds a constant to both lists, or to none of them.
fn push_both(
    declared: &mut Vec<GenericConstant>,
    group: &mut Vec<GenericConstant>,
    constant: GenericConstant,
) -> Result<(), AllocError>
    ensures declared { OnOk result (declared.new.items ≡ declared.old.items ++ constant ∷ []) }
    ensures grouped { OnOk result (group.new.items ≡ group.old.items ++ constant ∷ []) }
    ensures kept { OnErr result (declared.new.items ≡ declared.old.items) }
    ensures group_kept { OnErr result (group.new.items ≡ group.old.items) }
{
    declared.push(constant)?;
    match group.push(constant) {
        Ok(()) => Ok(()),
        Err(refused) => {
            let _ = declared.pop();
            Err(AllocError::from(refused))
        }
    }
}

impl GenericConstants {
    /// No constants.
    pub fn new(alloc: Global) -> GenericConstants
        ensures { result ≡ [] }
    {
        GenericConstants {
            declared: Vec::new(alloc),
            groups: Vec::new(alloc),
        }
    }

    /// Adds a constant behind the others, and answers its number among those of its generic. One that is
    /// not among the first 2^32 of its generic has no memory.
    pub fn add(&mut self, alloc: Global, constant: GenericConstant) -> Result<u32, AllocError>
        ensures number { IfOk result (λ n. n ≡ length (constants_of constant.generic (map constant_of self.old))) }
        ensures added { OnOk result (self.new ≡ self.old ++ constant ∷ []) }
    {
        let index = constant.generic as usize;
        make_room(alloc, &mut self.groups, index)?;
        let group = &mut self.groups[index];
        let number = numbered(group.as_slice().len())?;
        push_both(&mut self.declared, group, constant)?;
        Ok(number)
    }

    /// All constants, in order.
    pub fn into_declared(self) -> Vec<GenericConstant>
        ensures { result.items ≡ self }
    {
        self.declared
    }

    /// The constants of a generic, in order.
    pub(crate) fn of(&self, generic: u32) -> &[GenericConstant]
        ensures { map constant_of result.now ≡ constants_of generic (map constant_of self.now) }
    {
        match self.groups.get(generic as usize) {
            Some(group) => group.as_slice(),
            None => &[],
        }
    }
}
