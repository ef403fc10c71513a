//! Subprograms (Ada RM 2012, 6.1).

ghost use Rattle.std.specs.Prelude.{◌≡◌, ◌∷◌, [], ◌++◌, length, slice_get, unwrap_or, IfOk, OnOk};
ghost use Rattle.ada_tree.specs.View.{callee_of};
ghost use Rattle.ada_tree.specs.Programs.{mode_of};
ghost use Rattle.ada_entities.specs.StandardCode.{test_routine};
ghost use Rattle.ada_entities.specs.EntityViews.{Tables, no_routine};
ghost use Rattle.ada_entities.specs.RoutineViews.{IsRoutine, AreTestIo, HasRoutines, routine_from};

use crate::entity::Values;
use crate::types::{Identity, Subtype};
use ada_tree::{Callee, Mode};
use cov_base::{Bytes, Seq, numbered};
use std::alloc::{AllocError, Global};
use std::marker::Model;

/// A parameter, by its name in lower case; which subtype its mark names, where it names one (RM 6.1).
pub struct Parameter {
    pub name: Bytes,
    pub mode: Mode,
    pub mark: Option<Identity>,
    pub subtype: Subtype,
}

// Written out: a derived drop is proved anew in each crate above.
impl Drop for Parameter {
    fn drop(self) {
        let Parameter {
            name: _,
            mode: _,
            mark: _,
            subtype: _,
        } = self;
    }
}

/// The result of a function (RM 6.1).
#[derive(Clone, Copy)]
pub struct ResultMark {
    pub mark: Option<Identity>,
    pub subtype: Subtype,
}

/// A subprogram: what calls name, its parameters, and of a function the result and the values that a
/// case statement on a call names.
pub struct Routine {
    pub callee: Callee,
    pub parameters: Seq<Parameter>,
    pub result: Option<ResultMark>,
    pub values: Values,
}

// Written out: a derived drop is proved anew in each crate above.
impl Drop for Routine {
    fn drop(self) {
        let Routine {
            callee: _,
            parameters: _,
            result: _,
            values: _,
        } = self;
    }
}

/// The subprograms of a compilation, by their numbers.
pub struct Routines {
    routines: Vec<Routine>,
}

// Written out: a derived drop is proved anew in each crate above.
impl Drop for Routines {
    fn drop(self) {
        let Routines { routines: _ } = self;
    }
}

impl Model for Routines {
    ghost use Rattle.std.specs.Prelude.{List};
    ghost use Rattle.ada_entities.specs.declared.routines.Routine.{Routine};

    ghost Value = { List Routine };

    ghost view = { λ r. r.routines.items };
}

/// A subprogram of `Test_IO`, with its one parameter (RM A.1).
fn test_routine(alloc: Global, callee: Callee, mode: Mode) -> Result<Routine, AllocError>
    ensures { IfOk result (λ r. IsRoutine r (test_routine (callee_of callee) (mode_of mode))) }
{
    let mut parameters = Vec::new(alloc);
    parameters.push(Parameter {
        name: Bytes::from("item".as_bytes().to_vec(alloc)?),
        mode,
        mark: Some(Identity::Integer),
        subtype: Subtype::integer(),
    })?;
    Ok(Routine {
        callee,
        parameters: Seq::from(parameters),
        result: None,
        values: Values::Within(Subtype::integer().range),
    })
}

impl Routines {
    /// The subprograms of `Test_IO`, Get and Put.
    pub fn new(alloc: Global) -> Result<Routines, AllocError>
        ensures { IfOk result (λ rs. AreTestIo rs) }
    {
        let mut routines = Vec::new(alloc);
        routines.push(test_routine(alloc, Callee::TestGet, Mode::Out)?)?;
        routines.push(test_routine(alloc, Callee::TestPut, Mode::In)?)?;
        Ok(Routines { routines })
    }

    /// The subprogram with this number.
    pub fn get(&self, number: u32) -> Option<&Routine>
        ensures { (k : Tables) → HasRoutines k self.now → unwrap_or (slice_get k.routines number) no_routine ≡ routine_from k result }
    {
        self.routines.get(number as usize)
    }

    /// Adds a subprogram, and answers its number.
    pub fn add(&mut self, routine: Routine) -> Result<u32, AllocError>
        ensures number { IfOk result (λ n. n ≡ length self.old) }
        ensures added { OnOk result (self.new ≡ self.old ++ routine ∷ []) }
    {
        let number = numbered(self.routines.as_slice().len())?;
        self.routines.push(routine)?;
        Ok(number)
    }
}
