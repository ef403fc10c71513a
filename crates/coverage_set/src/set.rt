//! Sets as sorted lists, and the lists that they are made of.

ghost use Rattle.std.specs.Prelude.{◌≡◌, ◌≢◌, ◌↔◌, ◌⊎◌, ◌++◌, ◌∷◌, ◌+◌, ◌<◌, [], length, true};
ghost use Rattle.std.specs.Prelude.{IsTrue, IfOk, IfSome, MatchOption, unwrap_or, AllPairs};
ghost use Rattle.std.specs.List.Sorted.{IsStrictlySortedBy};
ghost use Rattle.std.specs.Set.{sorted_merge};
ghost use Rattle.cov_base.specs.Lists.{Somewhere};

use crate::exact::Exact;
use std::alloc::{AllocError, Global};
use std::cmp::Ordering;
use std::marker::Model;

/// A set. Contracts see its items, each once, in rising order.
#[derive(Drop)]
pub struct SortedSet<T: Exact + Drop> {
    items: Vec<T>,
}

impl<T: Exact + Drop> Model for SortedSet<T> {
    ghost use Rattle.std.specs.Prelude.{List};
    ghost use Rattle.std.specs.List.Sorted.{IsStrictlySortedBy};

    ghost Value = { List T };

    ghost view = { λ s. s.items.items };

    ghost invariant = { λ s. IsStrictlySortedBy T.cmp s.items.items };
}

impl<T: Exact + Drop> SortedSet<T> {
    /// The empty set.
    pub fn new(alloc: Global) -> Self
        ensures { result ≡ [] }
    {
        SortedSet {
            items: Vec::new(alloc),
        }
    }

    /// The set of one item.
    pub fn single(alloc: Global, item: T) -> Result<Self, AllocError>
        ensures { IfOk result (λ set. set ≡ item ∷ []) }
    {
        let mut items = Vec::new(alloc);
        items.push(item)?;
        Ok(SortedSet { items })
    }

    /// The set of the items of a list. It takes no memory.
    pub fn of(list: Vec<T>) -> Self
        ensures { (x : T) → Somewhere (λ y. y ≡ x) result ↔ Somewhere (λ y. y ≡ x) list.items }
    {
        let mut items = list;
        items.sort_unstable();
        items.dedup();
        SortedSet { items }
    }

    /// The items, each once.
    pub fn as_slice(&self) -> &[T]
        ensures items { result.now ≡ self.now }
        ensures sorted { IsStrictlySortedBy T.cmp self.now }
        ensures each_once { AllPairs (λ x y. x ≢ y) self.now }
    {
        self.items.as_slice()
    }

    /// Whether an item stands here.
    pub fn has(&self, item: &T) -> bool
        ensures { IsTrue result ↔ Somewhere (λ y. y ≡ item.now) self.now }
    {
        self.items.as_slice().binary_search(item).is_ok()
    }

    /// Whether the items of another set all stand here.
    fn has_all(&self, more: &SortedSet<T>) -> bool
        ensures { IsTrue result → (x : T) → Somewhere (λ y. y ≡ x) more.now → Somewhere (λ y. y ≡ x) self.now }
    {
        for item in more.items.as_slice() {
            if !self.has(item) {
                return false;
            }
        }
        true
    }

    /// The set with the items of another, both being gone through once; none where all of them stand
    /// here already, so that nothing is copied.
    pub fn grown(&self, alloc: Global, more: &SortedSet<T>) -> Result<Option<Self>, AllocError>
        ensures { IfOk result (λ grown. (x : T) → Somewhere (λ y. y ≡ x) (unwrap_or grown self.now)
            ↔ (Somewhere (λ y. y ≡ x) self.now ⊎ Somewhere (λ y. y ≡ x) more.now)) }
    {
        if self.has_all(more) {
            return Ok(None);
        }
        let items = merged(alloc, self.items.as_slice(), more.items.as_slice())?;
        Ok(Some(SortedSet { items }))
    }

    /// Takes what a set has grown to, if it has.
    pub fn take(&mut self, grown: Option<Self>)
        ensures { self.new ≡ unwrap_or grown self.old }
    {
        if let Some(grown) = grown {
            *self = grown;
        }
    }
}

/// The items of two rising lists, in rising order. An item of both comes once.
fn merged<T: Exact + Drop>(alloc: Global, left: &[T], right: &[T]) -> Result<Vec<T>, AllocError>
    ensures { IfOk result (λ items. items.items ≡ sorted_merge T.cmp true left.now right.now) }
{
    let mut items = Vec::new(alloc);
    let mut first = left;
    let mut second = right;
    while let Some((item, firsts, seconds)) = least_of(first, second) {
        items.push(item)?;
        first = firsts;
        second = seconds;
    }
    items.extend_from_slice(first)?;
    items.extend_from_slice(second)?;
    Ok(items)
}

/// The lesser of the first items of two lists, and what is then left of both. Of equal items both go.
/// There is none where one of the lists is empty.
fn least_of<'a, T: Exact>(left: &'a [T], right: &'a [T]) -> Option<(T, &'a [T], &'a [T])>
    ensures merged { MatchOption result (sorted_merge T.cmp true left.now right.now ≡ left.now ++ right.now)
        (λ least. sorted_merge T.cmp true left.now right.now
        ≡ least.0 ∷ sorted_merge T.cmp true least.1.now least.2.now) }
    ensures shorter { IfSome result (λ least. length least.1.now + length least.2.now
        < length left.now + length right.now) }
{
    let (first, lefts) = left.split_first()?;
    let (second, rights) = right.split_first()?;
    match first.cmp(second) {
        Ordering::Less => Some((*first, lefts, right)),
        Ordering::Equal => Some((*first, lefts, rights)),
        Ordering::Greater => Some((*second, left, rights)),
    }
}
