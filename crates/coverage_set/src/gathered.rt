//! Items that are gathered one by one, of which most stand there already.

ghost use Rattle.std.specs.Prelude.{◌≡◌, ◌↔◌, ◌⊎◌, [], IsTrue, OnOk};
ghost use Rattle.cov_base.specs.Lists.{Somewhere};

use crate::exact::Exact;
use crate::set::SortedSet;
use std::alloc::{AllocError, Global};
use std::marker::Model;

/// How many items are kept at least before doubled ones are looked for.
const LEAST_LIMIT: usize = 1024;

/// Of how many items a place is kept.
const PLACES: usize = 64;

/// Items in any order, and places of some of them, by their spread. An item that is the same as the one in
/// its place is not gathered again; so what the places are does not matter. Doubled items are dropped when
/// there are about twice as many items as different ones, so a long history of few vectors takes the room of
/// few.
#[derive(Drop)]
pub struct Gathered<T: Exact + Drop> {
    items: Vec<T>,
    limit: usize,
    places: [usize; PLACES],
}

impl<T: Exact + Drop> Model for Gathered<T> {
    ghost use Rattle.std.specs.Prelude.{List};

    ghost Value = { List T };

    ghost view = { λ g. g.items.items };
}

impl<T: Exact + Drop> Gathered<T> {
    /// Nothing is gathered.
    pub fn new(alloc: Global) -> Self
        ensures { result ≡ [] }
    {
        Gathered {
            items: Vec::new(alloc),
            limit: LEAST_LIMIT,
            places: [0; PLACES],
        }
    }

    /// Adds an item.
    pub fn add(&mut self, item: T) -> Result<(), AllocError>
        ensures { OnOk result ((x : T) → Somewhere (λ y. y ≡ x) self.new
            ↔ (Somewhere (λ y. y ≡ x) self.old ⊎ (item ≡ x))) }
    {
        let kept = item.spread() % PLACES;
        if self.has_at(self.places[kept], &item) {
            return Ok(());
        }
        self.make_room();
        self.places[kept] = self.items.len();
        self.items.push(item)?;
        Ok(())
    }

    /// Whether this item stands in a place. Of a loop's turns most tell again what one before told.
    #[inline(always)]
    fn has_at(&self, place: usize, item: &T) -> bool
        ensures { IsTrue result → Somewhere (λ x. x ≡ item.now) self.now }
    {
        match self.items.get(place) {
            Some(known) => *known == *item,
            None => false,
        }
    }

    /// Adds the items of a list.
    pub fn add_all(&mut self, items: &[T]) -> Result<(), AllocError>
        ensures { OnOk result ((x : T) → Somewhere (λ y. y ≡ x) self.new
            ↔ (Somewhere (λ y. y ≡ x) self.old ⊎ Somewhere (λ y. y ≡ x) items.now)) }
    {
        self.items.extend_from_slice(items)?;
        Ok(())
    }

    /// Drops doubled items where the limit is reached.
    fn make_room(&mut self)
        ensures { (x : T) → Somewhere (λ y. y ≡ x) self.new ↔ Somewhere (λ y. y ≡ x) self.old }
    {
        if self.items.len() < self.limit {
            return;
        }
        self.thin();
    }

    /// Drops doubled items.
    #[inline(never)]
    fn thin(&mut self)
        ensures { (x : T) → Somewhere (λ y. y ≡ x) self.new ↔ Somewhere (λ y. y ≡ x) self.old }
    {
        self.items.sort_unstable();
        self.items.dedup();
        self.limit = self
            .items
            .len()
            .saturating_mul(2)
            .saturating_add(LEAST_LIMIT);
    }

    /// The items.
    pub fn as_slice(&self) -> &[T]
        ensures { result.now ≡ self.now }
    {
        self.items.as_slice()
    }

    /// The set of the items.
    pub fn into_set(self) -> SortedSet<T>
        ensures { (x : T) → Somewhere (λ y. y ≡ x) result ↔ Somewhere (λ y. y ≡ x) self }
    {
        SortedSet::of(self.items)
    }
}
