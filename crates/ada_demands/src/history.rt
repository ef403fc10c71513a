//! What was asked so far, by the generics in whose texts it stands (Ada RM 2012, 12.3).

ghost use Rattle.std.specs.Prelude.{◌≡◌, ◌<◌, ℕ, [], length, nat_eq, OnOk, if◌then◌else◌};
ghost use Rattle.ada_demands.specs.Past.{nothing, past_at, past_from, past_behind};
ghost use Rattle.ada_demands.specs.Past.{asked_in, with_demand, with_instance};

use crate::demand::{Asked, Demand};
use std::alloc::{AllocError, Global};

/// The demands of a generic's text, and the generic's instances, in the order in which they came.
pub(crate) struct Group<'a> {
    pub(crate) demands: Vec<&'a Demand>,
    pub(crate) instances: Vec<u32>,
}

// Written out: a derived drop is proved anew in each crate above.
impl<'a> Drop for Group<'a> {
    fn drop(self) {
        let Group {
            demands: _,
            instances: _,
        } = self;
    }
}

/// What was asked so far of each generic, by the number of its unit.
pub(crate) struct History<'a> {
    groups: Vec<Group<'a>>,
}

// Written out: a derived drop is proved anew in each crate above.
impl<'a> Drop for History<'a> {
    fn drop(self) {
        let History { groups: _ } = self;
    }
}

impl<'a> History<'a> {
    /// Nothing was asked so far.
    pub(crate) fn new(alloc: Global) -> History<'a>
        ensures { (g : ℕ) → past_at result g ≡ nothing }
    {
        History {
            groups: Vec::new(alloc),
        }
    }

    /// Lets there be a group for this generic.
    fn make_room(&mut self, alloc: Global, generic: u32) -> Result<(), AllocError>
        ensures same { (g : ℕ) → past_at self.new g ≡ past_at self.old g }
        ensures there { OnOk result (generic < length self.new.groups.items) }
    {
        while self.groups.as_slice().len() <= generic as usize {
            self.groups.push(Group {
                demands: Vec::new(alloc),
                instances: Vec::new(alloc),
            })?;
        }
        Ok(())
    }

    /// Adds a demand of a generic's text.
    fn add_demand(
        &mut self,
        alloc: Global,
        generic: u32,
        demand: &'a Demand,
    ) -> Result<(), AllocError>
        ensures { OnOk result ((g : ℕ) → past_at self.new g
            ≡ (if nat_eq generic g then with_demand demand.now (past_at self.old g) else past_at self.old g)) }
    {
        self.make_room(alloc, generic)?;
        let group = &mut self.groups[generic as usize];
        group.demands.push(demand)?;
        Ok(())
    }

    /// Adds an instance of a generic.
    fn add_instance(&mut self, alloc: Global, generic: u32, instance: u32) -> Result<(), AllocError>
        ensures { OnOk result ((g : ℕ) → past_at self.new g
            ≡ (if nat_eq generic g then with_instance instance (past_at self.old g) else past_at self.old g)) }
    {
        self.make_room(alloc, generic)?;
        let group = &mut self.groups[generic as usize];
        group.instances.push(instance)?;
        Ok(())
    }

    /// Adds what was asked last. What stands in no generic is asked once, and is not kept.
    pub(crate) fn add(&mut self, alloc: Global, asked: &'a Asked) -> Result<(), AllocError>
        ensures { OnOk result ((g : ℕ) → past_at self.new g ≡ past_behind asked.now g (past_at self.old g)) }
    {
        match asked {
            Asked::Demand(demand) => match demand.generic {
                Some(generic) => self.add_demand(alloc, generic, demand),
                None => Ok(()),
            },
            Asked::Instantiated(made) => self.add_instance(alloc, made.generic, made.instance),
        }
    }

    /// What was asked so far of a generic, if anything was.
    pub(crate) fn group(&self, generic: u32) -> Option<&Group<'a>>
        ensures { past_from result ≡ past_at self.now generic }
    {
        self.groups.get(generic as usize)
    }

    /// The instances so far of a generic.
    fn instances_of(&self, generic: u32) -> &[u32]
        ensures { result.now ≡ (past_at self.now generic).instances }
    {
        match self.groups.get(generic as usize) {
            Some(group) => group.instances.as_slice(),
            None => &[],
        }
    }

    /// The instances so far in which a demand of this generic's text is asked; instance 0 for what
    /// stands in none.
    pub(crate) fn asked_in(&self, generic: Option<u32>) -> &[u32]
        ensures { result.now ≡ asked_in (past_at self.now) generic }
    {
        match generic {
            Some(generic) => self.instances_of(generic),
            None => &[0],
        }
    }
}
