//! The numbers of instances (Ada RM 2012, 12.3).

ghost use Rattle.std.specs.Prelude.{◌≡◌, ◌≤◌, ◌^◌, IfOk, IfErr};
ghost use Rattle.ada_library.specs.InstanceNumbering.{next_number, number_at, AreInstances};

use crate::items::is_instance;
use ada_syntax::{LibraryItem, Unit};
use cov_base::number_behind;
use std::alloc::{AllocError, Global};

/// The numbers of instances, from 1 on in the order of the text: for each unit the number that it has as
/// an instance, or that the next one has.
pub struct InstanceNumbers {
    pub(crate) numbers: Vec<u32>,
    pub(crate) next: u32,
}

// Written out: a derived drop is proved anew in each crate above.
impl Drop for InstanceNumbers {
    fn drop(self) {
        let InstanceNumbers {
            numbers: _,
            next: _,
        } = self;
    }
}

/// The number of the next instance behind a unit.
fn next_number(number: u32, item: &LibraryItem) -> Result<u32, AllocError>
    ensures number { IfOk result (λ n. n ≡ next_number number item.now) }
    ensures refused { IfErr result (λ e. 2 ^ 32 ≤ next_number number item.now) }
{
    if is_instance(item) {
        number_behind(number)
    } else {
        Ok(number)
    }
}

impl InstanceNumbers {
    /// Those of these units.
    pub fn new(alloc: Global, units: &[Unit]) -> Result<InstanceNumbers, AllocError>
        ensures { IfOk result (AreInstances units.now) }
    {
        let mut numbers = Vec::new(alloc);
        let mut next = 1;
        for unit in units {
            numbers.push(next)?;
            next = next_number(next, &unit.item)?;
        }
        Ok(InstanceNumbers { numbers, next })
    }

    /// The number of the instance that this unit is.
    pub fn of(&self, unit: u32) -> u32
        ensures { result ≡ number_at self.now.numbers.items self.now.next unit }
    {
        self.numbers
            .get(unit as usize)
            .copied()
            .unwrap_or(self.next)
    }
}
