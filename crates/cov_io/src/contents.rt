//! Named files in memory, seen as a finite map.

ghost use Rattle.std.specs.Prelude.{◌≡◌, OnOk, OnErr, IsOkUnless, position};
ghost use Rattle.std.specs.Option.{option_copied};
ghost use Rattle.std.specs.FinMap as map;
ghost use Rattle.cov_io.specs.Outside.{Replaces};
ghost use Rattle.cov_io.specs.Entries.{held_of, has_name};

use crate::files::FileFault;
use std::marker::Model;

/// A file by its name and bytes.
pub struct Entry {
    pub name: String,
    pub bytes: Vec<u8>,
}

// Written out: a derived drop is proved anew in each crate above.
impl Drop for Entry {
    fn drop(self) {
        let Entry { name: _, bytes: _ } = self;
    }
}

/// Files in memory, seen as the map from each name to the bytes of its first entry.
pub struct Contents {
    entries: Vec<Entry>,
}

// Written out: a derived drop is proved anew in each crate above.
impl Drop for Contents {
    fn drop(self) {
        let Contents { entries: _ } = self;
    }
}

impl Model for Contents {
    ghost use Rattle.std.specs.Prelude.{ℕ, List};
    ghost use Rattle.std.specs.Ordering.{nat_cmp};
    ghost use Rattle.std.specs.Cmp.Lexicographic.{slice_cmp};
    ghost use Rattle.std.specs.Coded.{coded_ℕ, coded_list};
    ghost use Rattle.std.specs.FinMap as map;

    ghost Value = { map.FinMap (slice_cmp nat_cmp) (List ℕ) };

    ghost coded = { map.code (coded_list coded_ℕ) (coded_list coded_ℕ) };

    ghost use Rattle.cov_io.specs.Entries.{held_of};

    ghost view = { λ contents. held_of contents.entries.items };
}

impl Contents {
    pub fn new(entries: Vec<Entry>) -> Self
        ensures { result ≡ held_of entries.items }
    {
        Contents { entries }
    }

    pub fn get(&self, name: &str) -> Option<&[u8]>
        ensures { option_copied result ≡ map.get self.now name.now }
    {
        let place = position_of(&self.entries, name)?;
        Some(self.entries[place].bytes.as_slice())
    }

    /// Replaces the bytes under the name, or adds the name with them.
    pub fn insert(&mut self, name: &str, bytes: &[u8]) -> Result<(), FileFault>
        ensures ok { OnOk result (Replaces name.now bytes.now self.old self.new) }
        ensures err { OnErr result (self.new ≡ self.old) }
        ensures only_memory { IsOkUnless result FileFault.NoMemory }
    {
        let alloc = *self.entries.allocator();
        let bytes = Vec::from_slice(alloc, bytes)?;
        if let Some(place) = position_of(&self.entries, name) {
            self.entries[place].bytes = bytes;
            return Ok(());
        }
        let name = String::from_str(alloc, name)?;
        self.entries.push(Entry { name, bytes })?;
        Ok(())
    }
}

fn position_of(entries: &[Entry], name: &str) -> Option<usize>
    ensures { result ≡ position (has_name name.now) entries.now }
{
    entries.iter().position(|entry| entry.name.as_str() == name)
}
