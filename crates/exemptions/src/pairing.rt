//! The regions of a source that are exempt from coverage.

ghost use Rattle.std.specs.Prelude.{◌≡◌, List, [], ◌∷◌, IfOk, IfErr};
ghost use Rattle.cov_base.specs.declared.failure.Failure.TheVariants.{Fault};
ghost use Rattle.exemptions.specs.declared.mark.Mark.{Mark};
ghost use Rattle.exemptions.specs.declared.mark.Mark.TheVariants as mark;
ghost use Rattle.exemptions.specs.Regions.{
  region_of,
  regions_of,
  is_before,
  is_inside,
  is_exempt,
  ArePlaced,
  Fails,
};
ghost use Rattle.exemptions.specs.Open.{paired_behind, IsEndOf, IsClosed};

use crate::mark::{Mark, mark_at};
use ada_lexer::Token;
use cov_base::{Bytes, Failure, Pos, Region};
use std::alloc::Global;
use thiserror::Error;

/// An exemption pragma that pairs with none, and where it stands.
#[derive(Clone, Copy, Debug, PartialEq, Eq, Error)]
#[error("an exemption pragma without its pair")]
pub struct Unpaired {
    /// The place.
    pub pos: Pos,
}

impl From<Unpaired> for Failure<Unpaired> {
    ghost from_gives = { λ unpaired failure. failure ≡ Fault unpaired };

    fn from(unpaired: Unpaired) -> Self {
        Failure::Fault(unpaired)
    }
}

/// What is open behind some pragmas.
#[derive(Drop)]
enum Open {
    /// No region.
    Nothing,
    /// A region: where it begins, and its justification.
    One(Pos, Bytes),
    /// A region, and one that begins inside it: where they begin.
    Two(Pos, Pos),
}

impl Open {
    /// What is open behind an On pragma.
    fn behind_on(self, pos: Pos, why: Bytes) -> Open
        ensures { (marks : List Mark) → paired_behind result marks ≡ paired_behind self (mark.On pos why ∷ marks) }
    {
        match self {
            Open::Nothing => Open::One(pos, why),
            Open::One(from, _) => Open::Two(from, pos),
            Open::Two(from, inner) => Open::Two(from, inner),
        }
    }

    /// The region that an Off pragma ends.
    fn ended(self, to: Pos) -> Result<Region, Unpaired>
        ensures { (marks : List Mark) → IsEndOf (paired_behind self (mark.Off to ∷ marks)) result marks }
    {
        match self {
            Open::Nothing => Err(Unpaired { pos: to }),
            Open::One(from, why) => Ok(region(from, why, to)),
            Open::Two(_, pos) => Err(Unpaired { pos }),
        }
    }

    /// Whether nothing is open at the end; else the pragma that pairs with none.
    fn closed(self) -> Result<(), Unpaired>
        ensures { IsClosed (paired_behind self []) result }
    {
        match self {
            Open::Nothing => Ok(()),
            Open::One(pos, _) | Open::Two(pos, _) => Err(Unpaired { pos }),
        }
    }
}

/// The region from an On pragma to an Off pragma.
fn region(from: Pos, why: Bytes, to: Pos) -> Region
    ensures { result ≡ region_of from why to }
{
    Region {
        file: from.file,
        from_line: from.line,
        from_column: from.col,
        to_line: to.line,
        to_column: to.col,
        why,
    }
}

/// The regions of a source, which are exempt from coverage: each from an On pragma to the Off pragma
/// that follows it. The fault is at the first pragma that is an Off outside a region, an On inside
/// one, or an On that no Off follows.
pub fn regions(alloc: Global, tokens: &[Token]) -> Result<Vec<Region>, Failure<Unpaired>>
    ensures regions { IfOk result (λ regions. regions_of tokens.now ≡ Ok regions.items) }
    ensures placed { IfOk result (λ regions. ArePlaced tokens.now regions.items) }
    ensures fault { IfErr result (λ failure. Fails failure (regions_of tokens.now)) }
{
    let mut regions = Vec::new(alloc);
    let mut opened = Open::Nothing;
    let mut rest = tokens;
    while let Some((_, after)) = rest.split_first() {
        match mark_at(alloc, rest)? {
            None => {}
            Some(Mark::On(pos, why)) => opened = opened.behind_on(pos, why),
            Some(Mark::Off(to)) => {
                regions.push(opened.ended(to)?)?;
                opened = Open::Nothing;
            }
        }
        rest = after;
    }
    opened.closed()?;
    Ok(regions)
}

/// Whether a place is exempt: strictly between the ends of one of the regions.
pub fn exempt(regions: &[Region], pos: Pos) -> bool
    ensures { result ≡ is_exempt regions.now pos }
{
    regions.iter().any(|region| is_inside(region, pos))
}

/// Whether a place is strictly between the ends of a region.
fn is_inside(region: &Region, pos: Pos) -> bool
    ensures { result ≡ is_inside pos region.now }
{
    region.file == pos.file
        && is_before(region.from_line, region.from_column, pos.line, pos.col)
        && is_before(pos.line, pos.col, region.to_line, region.to_column)
}

/// Whether a line and column stand before others.
fn is_before(line: u32, column: u32, later_line: u32, later_column: u32) -> bool
    ensures { result ≡ is_before line column later_line later_column }
{
    line < later_line || line == later_line && column < later_column
}
