//! Where a construct stands (Ada RM 2012, 5.7, 6.5, 8.1, 10.1, 11.3).

ghost use Rattle.std.specs.Prelude.{◌≡◌};
ghost use Rattle.ada_rules.specs.Environment as rules;
ghost use Rattle.ada_rules.specs.Environment.{Env};
ghost use Rattle.ada_entities.specs.EntityViews.{Tables};
ghost use Rattle.program_walk.specs.Walks.{IsPlaceOf, IsInside, IsInLoop, IsInHandler};

use crate::place::Place;
use crate::site::Site;
use crate::symbols::Symbols;
use ada_demands::Instances;
use ada_entities::Subtype;
use ada_library::Library;
use ada_phrases::Step;

/// Where declarations stand.
#[derive(Clone, Copy)]
pub enum Level {
    /// In the text of a package (RM 7.1).
    Library,
    /// In a subprogram or a block.
    Inside,
}

/// What `return` gives (RM 6.5).
#[derive(Clone, Copy)]
pub enum Returning {
    /// Nothing, in a procedure.
    Nothing,
    /// In a function a value of this subtype.
    Value(Subtype),
}

/// Where a construct stands, besides what is declared so far.
#[derive(Clone, Copy)]
pub struct Context<'a> {
    pub step: Step,
    /// The units of the program by name.
    pub library: &'a Library,
    /// What the instances so far have for formals and constants.
    pub instances: &'a Instances,
    /// The number of the unit.
    pub unit: u32,
    /// The name of the unit, in lower case; of a body that of its package.
    pub unit_name: &'a [u8],
    /// The name of the subprogram of a package, in lower case; empty elsewhere.
    pub subprogram_name: &'a [u8],
    /// The generic in whose text it stands, by the number of its unit.
    pub generic: Option<u32>,
    /// The package in whose text it stands, by the number of its unit.
    pub own_package: Option<u32>,
    pub level: Level,
    /// Whether it stands in a loop (RM 5.7).
    pub is_looping: bool,
    /// Whether it stands in a handler (RM 11.3).
    pub is_handling: bool,
    pub returning: Returning,
}

impl<'a> Context<'a> {
    /// The place for names and static expressions.
    pub fn place<'b>(&self, symbols: &'b Symbols) -> Place<'b>
    where
        'a: 'b,
        ensures { IsPlaceOf self.now symbols.now result }
    {
        let site = Site {
            step: self.step,
            symbols,
            own_package: self.own_package,
        };
        Place {
            site,
            instances: self.instances,
            generic: self.generic,
        }
    }

    /// In a region inside (RM 8.1).
    pub fn inside(self) -> Context<'a>
        ensures { IsInside self.entry result }
    {
        Context {
            level: Level::Inside,
            ..self
        }
    }

    /// In a loop (RM 5.5).
    pub fn in_loop(self) -> Context<'a>
        ensures { IsInLoop self.entry result }
    {
        Context {
            is_looping: true,
            ..self
        }
    }

    /// In a handler (RM 11.2).
    pub fn in_handler(self) -> Context<'a>
        ensures { IsInHandler self.entry result }
    {
        Context {
            is_handling: true,
            ..self
        }
    }
}
