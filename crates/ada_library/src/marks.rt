//! Marks on units (Ada RM 2012, 10.1.2).

ghost use Rattle.std.specs.Prelude.{◌≡◌, ◌<◌, [], length, OnOk};
ghost use Rattle.ada_library.specs.Marking.{is_marked, IsMarkedToo, AreSameMarks};

use std::alloc::{AllocError, Global};
use std::marker::Model;

/// Which units are marked, by their numbers.
pub struct Marks {
    marks: Vec<bool>,
}

// Written out: a derived drop is proved anew in each crate above.
impl Drop for Marks {
    fn drop(self) {
        let Marks { marks: _ } = self;
    }
}

impl Model for Marks {
    ghost use Rattle.std.specs.Prelude.{Bool, List};

    ghost Value = { List Bool };

    ghost view = { λ m. m.marks.items };
}

impl Marks {
    /// No marks.
    pub fn new(alloc: Global) -> Marks
        ensures { result ≡ [] }
    {
        Marks {
            marks: Vec::new(alloc),
        }
    }

    /// Whether a unit is marked.
    pub fn has(&self, unit: u32) -> bool
        ensures { result ≡ is_marked self.now unit }
    {
        self.marks.get(unit as usize).copied().unwrap_or(false)
    }

    /// Makes room for a mark of a unit.
    fn reach(&mut self, unit: u32) -> Result<(), AllocError>
        ensures room { OnOk result (unit < length self.new) }
        ensures marks { OnOk result (AreSameMarks self.old self.new) }
    {
        let index = unit as usize;
        if index < self.marks.len() {
            return Ok(());
        }
        self.marks.resize(index + 1, false)
    }

    /// Marks a unit.
    pub fn put(&mut self, unit: u32) -> Result<(), AllocError>
        ensures { OnOk result (IsMarkedToo unit self.old self.new) }
    {
        self.reach(unit)?;
        self.marks[unit as usize] = true;
        Ok(())
    }
}
