//! All units of a program in one of the steps (Ada RM 2012, 10.1, 10.2).

ghost use Rattle.std.specs.Prelude.{◌≡◌};
ghost use Rattle.ada_rules.specs.Denoted as rules;
ghost use Rattle.walked_program.specs.Judging.{IsMainThere, ComesToEnd, ComesToJudged};

use ada_entities::{Refusal, refused};
use ada_library::{Library, has_main, headings};
use ada_phrases::Step;
use ada_syntax::Unit;
use cov_base::{Failure, Pos};
use library_units::{all_bodies, all_shown, instances_before};
use program_walk::Walk;
use std::alloc::Global;
use walked_program::{Instances, WholeWalk};

/// Where the first file begins: there a program without its main unit is refused.
fn nowhere() -> Pos
    ensures { result ≡ rules.nowhere }
{
    Pos {
        file: 0,
        line: 1,
        col: 1,
    }
}

/// The main unit with this name in lower case is there.
#[tactic(auto, using(program_walk::proofs::GoingLaws::parts))]
fn main_is_there(alloc: Global, main: &[u8], units: &[Unit]) -> Result<(), Failure<Refusal>>
    ensures { IsMainThere main.now units.now result }
{
    if !has_main(alloc, main, units)? {
        return Err(refused(nowhere()));
    }
    Ok(())
}

/// Walks over all units in one of the steps, from the beginning: their headings, what they show each other
/// in the order in which they depend on each other, and their bodies in the order of the text; and the main
/// unit is among them. Refused at the rules' own place.
#[tactic(auto, using(program_walk::proofs::GoingLaws::parts))]
fn walk_over(
    alloc: Global,
    step: Step,
    library: &Library,
    instances: &mut Instances,
    walk: &mut Walk,
    units: &[Unit],
    main: &[u8],
) -> Result<(), Failure<Refusal>>
    ensures { ComesToEnd step library.now units.now main.now instances.old instances.new walk.old walk.new result }
{
    headings(alloc, library, units)?;
    all_shown(alloc, step, library, instances, walk, units)?;
    all_bodies(alloc, step, library, instances, walk, units)?;
    main_is_there(alloc, main, units)
}

/// All units in one of the steps, with the main unit, whose name is given in lower case. Refused at the
/// rules' own place.
#[tactic(auto, using(program_walk::proofs::GoingLaws::parts))]
pub fn judged(
    alloc: Global,
    step: Step,
    library: &Library,
    units: &[Unit],
    main: &[u8],
) -> Result<WholeWalk, Failure<Refusal>>
    ensures { ComesToJudged step library.now units.now main.now result }
{
    let instances = instances_before(alloc, units)?;
    let mut whole = WholeWalk::new(alloc, instances, units.len())?;
    let walked = walk_over(
        alloc,
        step,
        library,
        &mut whole.instances,
        &mut whole.walk,
        units,
        main,
    );
    whole.ended(alloc, walked)
}
