//! The evaluations that are under way, by their keys.

ghost use Rattle.std.specs.Prelude.{◌≡◌, ◌+◌, ◌<◌, ◌≤◌, None, false, OnOk, OnErr, IsOk, if◌then◌else◌};
ghost use Rattle.std.specs.HashMap.{get, spare};
ghost use Rattle.vector_rebuild.specs.declared.visit.Key.{Key as KeptKey};
ghost use Rattle.vector_rebuild.specs.Kept.{same, half_in, AreAlike};

use crate::half::Half;
use crate::visit::Key;
use std::alloc::{AllocError, Global};
use std::collections::HashMap;

/// What was kept last, and of which key: nothing, where its evaluation was completed.
#[derive(Clone, Copy)]
pub struct Latest {
    pub key: Key,
    pub half: Option<Half>,
}

/// The evaluations that are under way. Most entries of a history are of the key of the one before, so
/// what was kept last stands apart, and goes before what the table has of its key.
pub struct Halves {
    pub(crate) table: HashMap<Key, Half>,
    pub(crate) latest: Option<Latest>,
}

// Written out: a derived drop is proved anew in each crate above.
impl Drop for Halves {
    fn drop(self) {
        let Halves {
            table: _,
            latest: _,
        } = self;
    }
}

impl Halves {
    /// None is under way.
    pub fn new(alloc: Global) -> Self
        ensures { (k : KeptKey) → half_in result k ≡ None }
    {
        Halves {
            table: HashMap::new(alloc),
            latest: None,
        }
    }

    /// Makes room for so many.
    pub fn reserve(&mut self, more: usize) -> Result<(), AllocError>
        ensures room { OnOk result (more ≤ spare self.new.table) }
        ensures alike { AreAlike self.old self.new }
        ensures more { spare self.old.table ≤ spare self.new.table }
    {
        self.table.reserve(more)
    }

    /// The evaluation of a key.
    #[inline(always)]
    pub fn find(&self, key: Key) -> Option<Half>
        ensures { result ≡ half_in self.now key }
    {
        let Some(latest) = self.latest else {
            return self.table.get(&key).copied();
        };
        if latest.key == key {
            return latest.half;
        }
        self.table.get(&key).copied()
    }

    /// Lets the table have what was kept last, unless that is of this key.
    #[inline(always)]
    fn settle(&mut self, key: Key) -> Result<(), AllocError>
        ensures rest { OnOk result ((k : KeptKey) → same key k ≡ false → get same self.new.table k ≡ half_in self.old k) }
        ensures err { OnErr result (AreAlike self.old self.new) }
        ensures roomy { 0 < spare self.old.table → IsOk result }
        ensures room { spare self.old.table ≤ spare self.new.table + 1 }
    {
        let Some(latest) = self.latest else {
            return Ok(());
        };
        if latest.key == key {
            return Ok(());
        }
        match latest.half {
            Some(half) => {
                self.table.insert(latest.key, half)?;
            }
            None => {
                self.table.remove(&latest.key);
            }
        }
        Ok(())
    }

    /// Keeps the evaluation of a key, or that none is under way.
    #[inline(always)]
    pub fn put(&mut self, key: Key, half: Option<Half>) -> Result<(), AllocError>
        ensures after { OnOk result ((k : KeptKey) → half_in self.new k ≡ (if same key k then half else half_in self.old k)) }
        ensures err { OnErr result (AreAlike self.old self.new) }

        // With room for it no memory is taken.
        ensures roomy { 0 < spare self.old.table → IsOk result }
        ensures room { spare self.old.table ≤ spare self.new.table + 1 }
    {
        self.settle(key)?;
        self.latest = Some(Latest { key, half });
        Ok(())
    }
}
