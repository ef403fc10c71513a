//! Regions that stand one in the other (Ada RM 2012, 8.1, 8.3).

ghost use Rattle.std.specs.Prelude.{◌≡◌, [], ◌∷◌, option_map, IfErr, OnOk};
ghost use Rattle.ada_rules.specs.Entities as rules;
ghost use Rattle.ada_entities.specs.EntityViews.{Tables, entity_of, region_of};
ghost use Rattle.ada_entities.specs.RegionCode.{Declares, RefusesName, Redefines, regions_of, in_standard, innermost, enclosing, region_at};

use crate::entity::Entity;
use crate::fault::Refusal;
use crate::region::Region;
use crate::standard::predefined;
use crate::units::shown;
use ada_syntax::Identifier;
use cov_base::Failure;
use std::alloc::{AllocError, Global};
use std::marker::Model;

/// Regions that stand one in the other: of what a unit sees of the library, of its text, and of the
/// bodies, blocks and loops that are open at a place.
pub struct Regions {
    /// From the outermost to the innermost.
    regions: Vec<Region>,
}

// Written out: a derived drop is proved anew in each crate above.
impl Drop for Regions {
    fn drop(self) {
        let Regions { regions: _ } = self;
    }
}

impl Model for Regions {
    ghost use Rattle.std.specs.Prelude.{ℕ, List, reverse};
    ghost use Rattle.ada_entities.specs.declared.entity.Entity.{Entity};

    ghost Value = { List (List (List ℕ × Entity)) };

    ghost view = { λ r. reverse r.regions.items };
}

impl Regions {
    /// No regions.
    pub fn new(alloc: Global) -> Regions
        ensures { result ≡ [] }
    {
        Regions {
            regions: Vec::new(alloc),
        }
    }

    /// Opens a region inside the others.
    pub fn open(&mut self, region: Region) -> Result<(), AllocError>
        ensures { OnOk result (self.new ≡ region ∷ self.old) }
    {
        self.regions.push(region)?;
        Ok(())
    }

    /// Closes the innermost region, and takes it out; a new one where there is none.
    pub fn close(&mut self, alloc: Global) -> Region
        ensures region { result ≡ innermost self.old }
        ensures others { self.new ≡ enclosing self.old }
    {
        match self.regions.pop() {
            Some(region) => region,
            None => Region::new(alloc),
        }
    }

    /// What a name, in lower case, denotes in the innermost region that declares it (RM 8.3).
    pub fn find(&self, name: &[u8]) -> Option<Entity>
        ensures { (k : Tables) → option_map (entity_of k) result ≡ rules.found name.now (regions_of k self.now) }
    {
        let mut denoted = None;
        for region in self.regions.as_slice() {
            denoted = region.find(name).or(denoted);
        }
        denoted
    }

    /// What a name, in lower case, denotes in the region at this depth: 0 is the outermost.
    pub fn find_at(&self, depth: usize, name: &[u8]) -> Option<Entity>
        ensures { (k : Tables) → option_map (entity_of k) result ≡ rules.entity_of name.now (region_of k (region_at depth self.now)) }
    {
        match self.regions.get(depth) {
            Some(region) => region.find(name),
            None => None,
        }
    }

    /// What a name, in lower case, denotes in the innermost region.
    pub fn find_inside(&self, name: &[u8]) -> Option<Entity>
        ensures { (k : Tables) → option_map (entity_of k) result ≡ rules.entity_of name.now (region_of k (innermost self.now)) }
    {
        match self.regions.last() {
            Some(region) => region.find(name),
            None => None,
        }
    }

    /// What a name, in lower case, denotes where these regions stand inside the predefined one.
    pub fn visible(&self, name: &[u8]) -> Option<Entity>
        ensures { (k : Tables) → option_map (entity_of k) result ≡ rules.visible name.now (in_standard k self.now) }
    {
        shown(self.find(name).or(predefined(name)))
    }

    /// Declares a name in the innermost region. Where it is declared there already, the declaration is
    /// refused at it; after that, or where memory was refused, the innermost region is gone.
    pub fn declare(
        &mut self,
        alloc: Global,
        name: &Identifier,
        entity: Entity,
    ) -> Result<(), Failure<Refusal>>
        ensures declared { OnOk result (Declares (innermost self.old) name.now entity (innermost self.new)) }
        ensures others { OnOk result (enclosing self.new ≡ enclosing self.old) }
        ensures refused { IfErr result (RefusesName (innermost self.old) name.now entity) }
    {
        let mut region = self.close(alloc);
        region.declare(alloc, name, entity)?;
        self.open(region)?;
        Ok(())
    }

    /// Lets a name of the innermost region denote something else. Where memory is refused, the region
    /// is gone.
    pub fn redefine(
        &mut self,
        alloc: Global,
        name: &Identifier,
        entity: Entity,
    ) -> Result<(), AllocError>
        ensures redefined { OnOk result (Redefines (innermost self.old) (rules.key name.now) entity (innermost self.new)) }
        ensures others { OnOk result (enclosing self.new ≡ enclosing self.old) }
    {
        let mut region = self.close(alloc);
        region.redefine(alloc, name, entity)?;
        self.open(region)
    }
}
