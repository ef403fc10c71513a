//! A list of values that contracts see as a list.

ghost use Rattle.std.specs.Prelude.{◌≡◌, ◌↔◌, List, [], length, IsTrue};

use std::marker::Model;

/// A list of values. Contracts see the values in order, and nothing of the memory that holds them.
pub struct Seq<T> {
    items: Vec<T>,
}

// Written out: a derived drop is proved anew in each crate above.
impl<T: Drop> Drop for Seq<T> {
    fn drop(self) {
        let Seq { items: _ } = self;
    }
}

impl<T> Model for Seq<T> {
    ghost Value = { List T };

    ghost view = { λ s. s.items.items };
}

impl<T> Seq<T> {
    /// The items as a slice.
    pub fn as_slice(&self) -> &[T]
        ensures { result.now ≡ self.now }
    {
        self.items.as_slice()
    }

    /// How many items there are.
    pub fn len(&self) -> usize
        ensures { result ≡ length self.now }
    {
        self.items.len()
    }

    /// Whether there is none.
    pub fn is_empty(&self) -> bool
        ensures { IsTrue result ↔ (self.now ≡ []) }
    {
        self.items.is_empty()
    }

    /// The vector that the list was made of.
    fn into_items(self) -> Vec<T>
        ensures { result.items ≡ self }
    {
        let Seq { items } = self;
        items
    }
}

impl<T> From<Vec<T>> for Seq<T> {
    ghost from_gives = { λ v s. s ≡ v.items };

    /// The items of a vector, without taking memory.
    fn from(items: Vec<T>) -> Self {
        Seq { items }
    }
}

impl<T> From<Seq<T>> for Vec<T> {
    ghost from_gives = { λ s v. v.items ≡ s };

    /// The vector that the list was made of, without taking memory.
    fn from(list: Seq<T>) -> Self {
        list.into_items()
    }
}
