//! Laws of walks that go on, for the layers above. The function does nothing: it carries laws as its
//! contract.

ghost use Rattle.std.specs.Prelude.{◌≡◌, ℕ, List};
ghost use Rattle.ada_rules.specs.Environment.{opened, with_local, Env};
ghost use Rattle.ada_entities.specs.declared.entity.Entity.{Entity};
ghost use Rattle.ada_entities.specs.EntityViews.{Tables, region_of};
ghost use Rattle.program_walk.specs.Changes.{Grows, ChangesInside, Opens, Reopens};
ghost use Rattle.program_walk.specs.declared.context.Context.{Context};
ghost use Rattle.program_walk.specs.declared.walk.Walk.{Walk};
ghost use Rattle.program_walk.specs.Walks.{with_innermost, IsInside, Leads};

/// What a construct is looked at in follows the walk: where more is declared elsewhere, where a region
/// opens inside, and where the innermost region changes.
pub fn walks_follow()
    ensures grown { (c : Context) (old new : Walk) → Grows old.symbols new.symbols → Leads c c old new (λ k env. env) }
    ensures opened { (c d : Context) (old new : Walk) → IsInside c d → Opens old.symbols new.symbols
        → Leads c d old new (λ k env. opened env) }
    ensures reopened { (c d : Context) (old new : Walk) (r : List (List ℕ × Entity)) → IsInside c d
        → Reopens old.symbols new.symbols r → Leads c d old new (λ k env. with_local (opened env) (region_of k r)) }
    ensures inside { (c : Context) (old new : Walk) → ChangesInside old.symbols new.symbols
        → Leads c c old new (with_innermost new) }
{}
