//! Laws of symbol tables that change, for the layers above. The functions do nothing: each carries laws
//! as its contract.

ghost use Rattle.std.specs.Prelude.{◌≡◌, ℕ, false, List, [], ◌∷◌, replicate, Option};
ghost use Rattle.ada_rules.specs.Entities.{whole_standard};
ghost use Rattle.ada_rules.specs.Environment.{no_interface, World, Env, with_local, opened};
ghost use Rattle.ada_rules.specs.Statics.{Spans};
ghost use Rattle.ada_entities.specs.declared.entity.Entity.{Entity};
ghost use Rattle.ada_entities.specs.declared.units.Interface.{Interface};
ghost use Rattle.ada_entities.specs.declared.units.Interface.TheVariants as interface;
ghost use Rattle.ada_entities.specs.EntityViews.{Tables, region_of};
ghost use Rattle.ada_entities.specs.RegionCode.{innermost};
ghost use Rattle.ada_phrases.specs.declared.scope.Step.{Step};
ghost use Rattle.program_walk.specs.declared.symbols.Symbols.{Symbols};
ghost use Rattle.program_walk.specs.Known.{knows_instance};
ghost use Rattle.program_walk.specs.SymbolViews.{Begins};
ghost use Rattle.program_walk.specs.Exact.{exact};
ghost use Rattle.program_walk.specs.Sites.{HoldsUnits, Holds};
ghost use Rattle.program_walk.specs.Changes.{Grows, Opens, Reopens, ChangesInside, ShowsUnit, IsFresh};
ghost use Rattle.program_walk.specs.Leading.{Leads, Shows, ShowsInstance, StandsInUnit, StandsInPackage};

/// A place follows the symbol table: where it grows, where a region opens, and where the innermost
/// region changes, which is the local one of the rules.
pub fn places_follow()
    ensures grown { (old new : Symbols) → Grows old new → Leads old new (λ k env. env) }
    ensures opened { (old new : Symbols) → Opens old new → Leads old new (λ k env. opened env) }
    ensures reopened { (old new : Symbols) (r : List (List ℕ × Entity)) → Reopens old new r
        → Leads old new (λ k env. with_local (opened env) (region_of k r)) }
    ensures inside { (old new : Symbols) → ChangesInside old new
        → Leads old new (λ k env. with_local env (region_of k (innermost new.regions))) }
    ensures innermost { (now : Step) (own : Option ℕ) (symbols : Symbols) (k : Tables) (env : Env)
        → Holds now own symbols k env → env.local ≡ region_of k (innermost symbols.regions) }
{}

/// A world follows the symbol table where another unit is seen, an instance too; and a unit that is
/// looked at in it stands where the rules have it.
pub fn units_follow()
    ensures shown { (old new : Symbols) (n : ℕ) (i : Interface) → ShowsUnit old new n i → Shows old new n i }
    ensures instance { (old new : Symbols) (n : ℕ) (g : Option ℕ) (j : ℕ)
        → ShowsUnit old new n (interface.Instance g j) → knows_instance old.extent j ≡ false → ShowsInstance old new n g j }
    ensures unit { (symbols : Symbols) (seen : List (List ℕ × Entity)) → symbols.regions ≡ [] ∷ seen ∷ []
        → StandsInUnit symbols seen }
    ensures text { (symbols : Symbols) (text seen : List (List ℕ × Entity)) → symbols.regions ≡ text ∷ seen ∷ []
        → StandsInPackage symbols text seen }
{}

/// A walk over the units begins in a world where nothing is seen of them, whatever tables begin with
/// the fresh symbols; and the tables that it ends with begin with what was declared.
pub fn walks_begin_and_end()
    ensures begin { (count : ℕ) (symbols : Symbols) (k : Tables) (w : World) → IsFresh count symbols → Begins symbols k
        → w.interfaces ≡ replicate count no_interface → w.standard ≡ whole_standard → HoldsUnits symbols k w }
    ensures end { (symbols : Symbols) (spans : List Spans) → Begins symbols (exact symbols spans) }
{}
