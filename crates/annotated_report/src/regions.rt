//! Regions of a report: which of them holds a place.

ghost use Rattle.std.specs.Prelude.{◌≡◌, ◌<◌, ◌≤◌, ◌+◌, ℕ, length, option_map, IfSome};
ghost use Rattle.std.specs.Bool.{IsTrue};
ghost use Rattle.exemptions.specs.Regions.{start_of, end_of, is_exempt};
ghost use Rattle.annotated_report.specs.Held.{number_round};
ghost use Rattle.annotated_report.specs.Lines as lines;
ghost use Rattle.annotated_report.specs.Rising.{is_behind, rise, begins_before};

use cov_base::{Pos, Region};
use exemptions::exempt;
use std::marker::Model;

/// The regions of a report. Contracts see their list. Those of an object rise, but no caller owes
/// that: it is tested once, and where it fails a look-up goes through the list.
pub struct Regions<'a> {
    list: &'a [Region],
    is_rising: bool,
}

impl<'a> Drop for Regions<'a> {
    fn drop(self) {
        let Regions {
            list: _,
            is_rising: _,
        } = self;
    }
}

impl<'a> Model for Regions<'a> {
    ghost use Rattle.std.specs.Prelude.{List, ◌≡◌};
    ghost use Rattle.cov_base.specs.declared.obligations.Region.{Region};
    ghost use Rattle.annotated_report.specs.Rising.{rise};

    ghost Value = { List Region };

    ghost view = { λ r. r.list.now };

    ghost invariant = { λ r. r.is_rising ≡ rise r.list.now };
}

impl<'a> Regions<'a> {
    /// These regions.
    pub fn of(list: &'a [Region]) -> Self
        ensures { result ≡ list.now }
    {
        Regions {
            list,
            is_rising: rise(list),
        }
    }

    /// How many there are.
    pub fn len(&self) -> usize
        ensures { result ≡ length self.now }
    {
        self.list.len()
    }

    /// The number of the first region that holds a place.
    pub fn number(&self, pos: Pos) -> Option<usize>
        ensures number { result ≡ number_round pos 0 self.now }
        ensures within { IfSome result (λ n. n < length self.now) }
    {
        if self.is_rising {
            return rising_number(self.list, pos);
        }
        number_round(self.list, pos)
    }

    /// The first region that holds a place.
    pub fn round(&self, pos: Pos) -> Option<&Region>
        ensures { option_map (λ region. region.now) result ≡ lines.region_round pos self.now }
    {
        match self.number(pos) {
            Some(number) => Some(&self.list[number]),
            None => None,
        }
    }

    /// Whether a region holds a place.
    pub fn hold(&self, pos: Pos) -> bool
        ensures { result ≡ is_exempt self.now pos }
    {
        self.round(pos).is_some()
    }
}

/// The number of the first region that holds a place, by going through the list.
fn number_round(regions: &[Region], pos: Pos) -> Option<usize>
    ensures number { result ≡ number_round pos 0 regions.now }
    ensures within { IfSome result (λ n. n < length regions.now) }
{
    for (number, region) in regions.iter().enumerate() {
        if exempt(std::slice::from_ref(region), pos) {
            return Some(number);
        }
    }
    None
}

/// The same by halves, where the regions rise.
fn rising_number(regions: &[Region], pos: Pos) -> Option<usize>
    ensures number { IsTrue (rise regions.now) → result ≡ number_round pos 0 regions.now }
    ensures within { IfSome result (λ n. n < length regions.now) }
{
    let (before, rest) = last_begun(regions, pos);
    match number_round(rest, pos) {
        Some(at) => Some(before + at),
        None => None,
    }
}

/// Of regions at most one, and how many stand before it. Where they rise, it is the only one that may
/// hold the place.
fn last_begun(regions: &[Region], pos: Pos) -> (usize, &[Region])
    ensures few { length result.1.now ≤ 1 }
    ensures within { result.0 + length result.1.now ≤ length regions.now }
    ensures same { IsTrue (rise regions.now)
        → number_round pos result.0 result.1.now ≡ number_round pos 0 regions.now }
{
    let mut before = 0;
    let mut rest = regions;
    while rest.len() > 1 {
        let (passed, half) = half_round(rest, pos);
        before += passed;
        rest = half;
    }
    (before, rest)
}

/// Half of the regions, and how many stand before it: the later ones, if the first of them begins before
/// the place. Where the regions rise, none of the others holds it.
fn half_round(regions: &[Region], pos: Pos) -> (usize, &[Region])
    requires { 1 < length regions.now }
    ensures fewer { length result.1.now < length regions.now }
    ensures within { result.0 + length result.1.now ≤ length regions.now }
    ensures risen { IsTrue (rise regions.now) → IsTrue (rise result.1.now) }
    ensures same { (before : ℕ) → IsTrue (rise regions.now)
        → number_round pos (before + result.0) result.1.now ≡ number_round pos before regions.now }
{
    let half = regions.len() / 2;
    let (earlier, later) = regions.split_at(half);
    if begins_before(later, pos) {
        return (half, later);
    }
    (0, earlier)
}

/// Whether each region is behind the one before it.
fn rise(regions: &[Region]) -> bool
    ensures { result ≡ rise regions.now }
{
    let Some((first, rest)) = regions.split_first() else {
        return true;
    };
    let mut before = first;
    for region in rest {
        if !is_behind(before, region) {
            return false;
        }
        before = region;
    }
    true
}

/// Whether a region begins neither before another one begins nor before that one ends.
fn is_behind(one: &Region, next: &Region) -> bool
    ensures { result ≡ is_behind one.now next.now }
{
    let start = start_of(next);
    !start.precedes(start_of(one)) && !start.precedes(end_of(one))
}

/// Whether the first region, if there is one, begins before a place.
fn begins_before(regions: &[Region], pos: Pos) -> bool
    ensures { result ≡ begins_before pos regions.now }
{
    match regions.first() {
        Some(first) => start_of(first).precedes(pos),
        None => false,
    }
}

/// Where a region begins.
fn start_of(region: &Region) -> Pos
    ensures { result ≡ start_of region.now }
{
    Pos {
        file: region.file,
        line: region.from_line,
        col: region.from_column,
    }
}

/// Where a region ends.
fn end_of(region: &Region) -> Pos
    ensures { result ≡ end_of region.now }
{
    Pos {
        file: region.file,
        line: region.to_line,
        col: region.to_column,
    }
}
