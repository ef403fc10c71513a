//! The exempt regions of source files, from their tokens.

ghost use Rattle.std.specs.Prelude.{◌≡◌, Ok, IfOk, IfErr};
ghost use Rattle.exemptions.specs.Regions.{Fails};
ghost use Rattle.program_objects.specs.Exemptions.{regions_in, regions_of_lists, unpaired_in};

use ada_lexer::Token;
use cov_base::{Failure, Pos, Region, Seq};
use exemptions::{Unpaired, regions};
use std::alloc::{AllocError, Global};

/// How the exemption pragmas of source files pair.
#[derive(Drop)]
pub struct Exemptions {
    /// The regions, in the order of the files: none, where a pragma pairs with none.
    pub regions: Seq<Region>,
    /// Where the first pragma stands that pairs with none.
    pub unpaired: Option<Pos>,
}

/// How the exemption pragmas of files pair, from the tokens of each.
pub(crate) fn exemptions_of(alloc: Global, lists: &[Seq<Token>]) -> Result<Exemptions, AllocError>
    ensures regions { IfOk result (λ e. e.regions ≡ regions_in (regions_of_lists lists.now)) }
    ensures unpaired { IfOk result (λ e. e.unpaired ≡ unpaired_in (regions_of_lists lists.now)) }
{
    match all_regions(alloc, lists) {
        Ok(regions) => Ok(Exemptions {
            regions: Seq::from(regions),
            unpaired: None,
        }),
        Err(Failure::Fault(Unpaired { pos })) => Ok(Exemptions {
            regions: Seq::from(Vec::new(alloc)),
            unpaired: Some(pos),
        }),
        Err(Failure::WantOfMemory) => Err(AllocError),
    }
}

/// The regions of all files, from the tokens of each, or the first pragma that pairs with none.
fn all_regions(alloc: Global, lists: &[Seq<Token>]) -> Result<Vec<Region>, Failure<Unpaired>>
    ensures regions { IfOk result (λ all. regions_of_lists lists.now ≡ Ok all.items) }
    ensures fault { IfErr result (λ failure. Fails failure (regions_of_lists lists.now)) }
{
    let mut all = Vec::new(alloc);
    for tokens in lists {
        let mut more = regions(alloc, tokens.as_slice())?;
        all.append(&mut more)?;
    }
    Ok(all)
}
