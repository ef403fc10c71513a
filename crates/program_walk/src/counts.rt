//! The counters of the walk.

ghost use Rattle.std.specs.Prelude.{◌≡◌, IfOk, OnOk};
ghost use Rattle.ada_tree.specs.View.{label_of};
ghost use Rattle.ada_rules.specs.Environment.{beginning_state, State};
ghost use Rattle.program_walk.specs.States.{with_counts};
ghost use Rattle.program_walk.specs.Counting.{IsLabel, Starts, CountsObject, CountsLibraryObject, CountsException, CountsType};

use ada_tree::Label;
use cov_base::{Pos, number_behind};
use std::alloc::AllocError;

/// The next numbers: of statements, of objects of the subprogram and of the library level, of exceptions,
/// and of types of the unit. One beyond 2^32 - 1 has no memory.
#[derive(Clone, Copy)]
pub struct Counts {
    pub statements: u32,
    pub objects: u32,
    pub library_objects: u32,
    pub exceptions: u32,
    pub types: u32,
}

impl Counts {
    /// Before anything was met.
    pub fn new() -> Counts
        ensures { with_counts result beginning_state ≡ beginning_state }
    {
        Counts {
            statements: 0,
            objects: 0,
            library_objects: 0,
            exceptions: 0,
            types: 0,
        }
    }

    /// Takes the number of a statement obligation whose first token stands at this place.
    pub fn statement(&mut self, pos: Pos) -> Result<Label, AllocError>
        ensures label { IfOk result (IsLabel self.old pos) }
        ensures taken { OnOk result (Starts self.old self.new) }
    {
        let number = self.statements;
        self.statements = number_behind(number)?;
        Ok(Label { number, place: pos })
    }

    /// Takes the number of an object of the subprogram.
    pub fn object(&mut self) -> Result<u32, AllocError>
        ensures number { IfOk result (λ n. n ≡ self.old.objects) }
        ensures taken { OnOk result (CountsObject self.old self.new) }
    {
        let number = self.objects;
        self.objects = number_behind(number)?;
        Ok(number)
    }

    /// Takes the number of an object of the library level.
    pub fn library_object(&mut self) -> Result<u32, AllocError>
        ensures number { IfOk result (λ n. n ≡ self.old.library_objects) }
        ensures taken { OnOk result (CountsLibraryObject self.old self.new) }
    {
        let number = self.library_objects;
        self.library_objects = number_behind(number)?;
        Ok(number)
    }

    /// Takes the number of an exception.
    pub fn exception(&mut self) -> Result<u32, AllocError>
        ensures number { IfOk result (λ n. n ≡ self.old.exceptions) }
        ensures taken { OnOk result (CountsException self.old self.new) }
    {
        let number = self.exceptions;
        self.exceptions = number_behind(number)?;
        Ok(number)
    }

    /// Takes the number of a type or subtype of the unit.
    pub fn declared_type(&mut self) -> Result<u32, AllocError>
        ensures number { IfOk result (λ n. n ≡ self.old.types) }
        ensures taken { OnOk result (CountsType self.old self.new) }
    {
        let number = self.types;
        self.types = number_behind(number)?;
        Ok(number)
    }
}
