//! Laws of units that are entered and left, for the layers above. The functions do nothing: each carries
//! laws as its contract.

ghost use Rattle.std.specs.Prelude.{◌≡◌, ℕ, List, [], Option};
ghost use Rattle.cov_base.specs.declared.position.Pos.{Pos};
ghost use Rattle.ada_syntax.specs.declared.unit.Instance.{Instance};
ghost use Rattle.ada_syntax.specs.declared.unit.Unit.{Unit as LibraryUnit};
ghost use Rattle.ada_rules.specs.Environment.{Env, State};
ghost use Rattle.ada_rules.specs.Units.{at_unit, instance_judged};
ghost use Rattle.ada_rules.specs.Library.{Library as RulesLibrary};
ghost use Rattle.ada_rules.specs.Statics.{Facts};
ghost use Rattle.ada_entities.specs.declared.entity.Entity.{Entity};
ghost use Rattle.ada_entities.specs.declared.units.Interface.{Interface};
ghost use Rattle.ada_library.specs.declared.library.Library.{Library};
ghost use Rattle.ada_library.specs.LibraryView.{IsLibrary};
ghost use Rattle.ada_library.specs.Seeing.{IsSeen, IsSeenInBody};
ghost use Rattle.ada_phrases.specs.declared.scope.Step.{Step};
ghost use Rattle.program_walk.specs.declared.symbols.Symbols.{Symbols};
ghost use Rattle.program_walk.specs.Alike.{IsKnownRegion};
ghost use Rattle.program_walk.specs.Changes.{Becomes, ShowsUnit};
ghost use Rattle.program_walk.specs.SymbolViews.{IsKnown};
ghost use Rattle.program_walk.specs.declared.context.Context.{Context};
ghost use Rattle.program_walk.specs.declared.walk.Walk.{Walk};
ghost use Rattle.program_walk.specs.Standing.{IsKnownEntity, Follows, FollowsShown};
ghost use Rattle.unit_walk.specs.Instantiating.{instance_part, judged_from};
ghost use Rattle.unit_walk.specs.Entering.{IsUnitContext, IsPackageContext, IsEntered, StandsInUnit, StandsInPackage};

/// What a unit, and what the body of a package, sees of the library leads only to what is there.
pub fn regions_seen_are_known()
    ensures seen { (x : Library) (all : List LibraryUnit) (l : RulesLibrary) (symbols : Symbols) (u : LibraryUnit)
        (own : Entity) (region : List (List ℕ × Entity)) → IsLibrary x all l → IsKnown symbols
        → IsKnownEntity symbols.extent own → IsSeen x symbols.units u own region
        → IsKnownRegion symbols.extent region }
    ensures in_body { (x : Library) (all : List LibraryUnit) (l : RulesLibrary) (symbols : Symbols) (n : ℕ)
        (u : LibraryUnit) (region : List (List ℕ × Entity)) → IsLibrary x all l → IsKnown symbols
        → IsSeenInBody x symbols.units all n u region → IsKnownRegion symbols.extent region }
{}

/// A world follows the walk between units: where the symbols grow and regions open and close, and where
/// a unit is seen by others.
pub fn walks_stand_before_units()
    ensures grown { (old new : Walk) (rs : List (List (List ℕ × Entity)))
        → Becomes old.symbols new.symbols rs old.symbols.units → Follows old new }
    ensures shown { (old new : Walk) (n : ℕ) (i : Interface) → ShowsUnit old.symbols new.symbols n i
        → FollowsShown old new n i }
{}

/// A unit that was entered, and the text of a package in it, stand where the rules have them.
pub fn units_are_entered()
    ensures unit { (step : Step) (x : Library) (instances : List Facts) (n : ℕ) (name : List ℕ) (c : Context)
        (old new : Walk) (seen : List (List ℕ × Entity)) → IsUnitContext step x instances n name c
        → IsEntered old seen [] new → StandsInUnit old new c seen }
    ensures text { (step : Step) (x : Library) (instances : List Facts) (n : ℕ) (name : List ℕ) (c d : Context)
        (g : Option ℕ) (own : ℕ) (old new : Walk) (seen text : List (List ℕ × Entity))
        → IsUnitContext step x instances n name c → IsPackageContext c g own d → IsEntered old seen text new
        → StandsInPackage old new d g own seen text }
{}

/// What the rules make of an instance follows from its generic and its actuals.
pub fn instances_are_judged()
    ensures { (env : Env) (s : State) (p : Pos) (n k : ℕ) (i : Instance) → (instance_judged env s p n k i).answer
        ≡ judged_from env.world p n k i (instance_part env (at_unit s) p k i).answer }
{}
