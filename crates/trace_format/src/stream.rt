//! The bytes of a file one after another, of which one part at a time is in memory.

ghost use Rattle.std.specs.Prelude.{◌≡◌, ◌≢◌, ℕ, ◌+◌, ◌^◌, ◌<◌, ◌≤◌, ◌⊎◌, List, [], length, take, drop, slice_get, string_bytes, IfOk, OnOk, IsErrOf};
ghost use Rattle.sha2.specs.Sha256.{sha256};
ghost use Rattle.cov_io.specs.declared.files.FileFault.{FileFault};
ghost use Rattle.cov_io.specs.Outside.{Rose, IsAbsent};
ghost use Rattle.trace_format.specs.Stream.{AreTold, StandsAt, TookAhead, HasNext, count_of};

use cov_base::Digest;
use cov_io::{FileFault, Files};
use sha2::{Digest as _, Sha256};
use std::alloc::{AllocError, Global};

/// How many bytes are asked for at a time.
const PART: usize = 65_536;

/// A file that is read from its front. Its bytes before the part in memory are hashed.
pub struct Stream {
    name: String,
    part: Vec<u8>,
    at: usize,
    fetched: u64,
    hasher: Sha256,
}

// Written out: a derived drop is proved anew in each crate above.
impl Drop for Stream {
    fn drop(self) {
        let Stream {
            name: _,
            part: _,
            at: _,
            fetched: _,
            hasher: _,
        } = self;
    }
}

impl Stream {
    /// The file of this name, of which nothing is fetched.
    pub fn new(alloc: Global, name: &str) -> Result<Stream, AllocError>
        ensures name { IfOk result (λ s. string_bytes s.name ≡ name.now) }
        ensures stands { IfOk result (λ s. (bytes : List ℕ) → StandsAt s bytes 0) }
    {
        Ok(Stream {
            name: String::from_str(alloc, name)?,
            part: Vec::new(alloc),
            at: 0,
            fetched: 0,
            hasher: Sha256::new(),
        })
    }

    /// Takes the next bytes into `into`, and answers how many there were: fewer than it has room for
    /// only at the end of the file.
    #[inline(always)]
    pub fn fill<F: Files>(&mut self, files: &mut F, into: &mut [u8]) -> Result<usize, FileFault>
        ensures takes { (bytes : List ℕ) (taken : ℕ) → AreTold (F.held files.old) (string_bytes self.old.name) bytes
            → StandsAt self.old bytes taken → taken < 2 ^ 40 → length into.old < 2 ^ 16
            → IfOk result (λ n. (take n into.new ≡ take (length into.old) (drop taken bytes))
            × StandsAt self.new bytes (taken + n)) }
        ensures count { IfOk result (λ n. n ≤ length into.old) }
        ensures len { length into.new ≡ length into.old }
        ensures name { string_bytes self.new.name ≡ string_bytes self.old.name }
        ensures same { F.held files.new ≡ F.held files.old }
        ensures failed { IsErrOf result FileFault.Failed
            → Rose (F.reads_failed files.old) (F.reads_failed files.new)
            ⊎ IsAbsent (F.held files.old) (string_bytes self.old.name) }
        ensures stays { result ≢ Err FileFault.Failed → F.reads_failed files.new ≡ F.reads_failed files.old }
        ensures later { F.reads_failed files.old ≤ F.reads_failed files.new }
        ensures writes { F.writes_failed files.new ≡ F.writes_failed files.old }
    {
        if self.take_ahead(into) {
            return Ok(into.len());
        }
        self.fill_across(files, into)
    }

    /// Takes the next bytes into `into`, also where the part in memory ends before.
    #[cold]
    #[inline(never)]
    fn fill_across<F: Files>(&mut self, files: &mut F, into: &mut [u8]) -> Result<usize, FileFault>
        ensures takes { (bytes : List ℕ) (taken : ℕ) → AreTold (F.held files.old) (string_bytes self.old.name) bytes
            → StandsAt self.old bytes taken → taken < 2 ^ 40 → length into.old < 2 ^ 16
            → IfOk result (λ n. (take n into.new ≡ take (length into.old) (drop taken bytes))
            × StandsAt self.new bytes (taken + n)) }
        ensures count { IfOk result (λ n. n ≤ length into.old) }
        ensures len { length into.new ≡ length into.old }
        ensures name { string_bytes self.new.name ≡ string_bytes self.old.name }
        ensures same { F.held files.new ≡ F.held files.old }
        ensures failed { IsErrOf result FileFault.Failed
            → Rose (F.reads_failed files.old) (F.reads_failed files.new)
            ⊎ IsAbsent (F.held files.old) (string_bytes self.old.name) }
        ensures stays { result ≢ Err FileFault.Failed → F.reads_failed files.new ≡ F.reads_failed files.old }
        ensures later { F.reads_failed files.old ≤ F.reads_failed files.new }
        ensures writes { F.writes_failed files.new ≡ F.writes_failed files.old }
    {
        for place in 0..into.len() {
            let Some(byte) = self.byte(files)? else {
                return Ok(place);
            };
            into[place] = byte;
        }
        Ok(into.len())
    }

    /// Takes as many bytes as `into` has room for out of the part in memory, where that many are left in it.
    #[inline(always)]
    fn take_ahead(&mut self, into: &mut [u8]) -> bool
        ensures takes { (bytes : List ℕ) (taken : ℕ) → StandsAt self.old bytes taken
            → TookAhead result self.new into.new bytes taken (length into.old) }
        ensures len { length into.new ≡ length into.old }
        ensures name { string_bytes self.new.name ≡ string_bytes self.old.name }
    {
        let room = into.len();
        let end = self.at.saturating_add(room);
        if end > self.part.len() {
            return false;
        }
        // Of two steps the second has the length that is asked for, so a short one is copied in place.
        into.copy_from_slice(&self.part[self.at..][..room]);
        self.at = end;
        true
    }

    /// Takes the next byte. There is none at the end of the file.
    fn byte<F: Files>(&mut self, files: &mut F) -> Result<Option<u8>, FileFault>
        ensures takes { (bytes : List ℕ) (taken : ℕ) → AreTold (F.held files.old) (string_bytes self.old.name) bytes
            → StandsAt self.old bytes taken → taken < 2 ^ 41
            → IfOk result (λ next. (next ≡ slice_get bytes taken) × StandsAt self.new bytes (taken + count_of next)) }
        ensures name { string_bytes self.new.name ≡ string_bytes self.old.name }
        ensures same { F.held files.new ≡ F.held files.old }
        ensures failed { IsErrOf result FileFault.Failed
            → Rose (F.reads_failed files.old) (F.reads_failed files.new)
            ⊎ IsAbsent (F.held files.old) (string_bytes self.old.name) }
        ensures stays { result ≢ Err FileFault.Failed → F.reads_failed files.new ≡ F.reads_failed files.old }
        ensures later { F.reads_failed files.old ≤ F.reads_failed files.new }
        ensures writes { F.writes_failed files.new ≡ F.writes_failed files.old }
    {
        self.fetch(files)?;
        if self.at >= self.part.len() {
            return Ok(None);
        }
        let byte = self.part[self.at];
        self.at += 1;
        Ok(Some(byte))
    }

    /// Fetches the next part where all of the one in memory was taken, which is hashed then.
    fn fetch<F: Files>(&mut self, files: &mut F) -> Result<(), FileFault>
        ensures fetches { (bytes : List ℕ) (taken : ℕ) → AreTold (F.held files.old) (string_bytes self.old.name) bytes
            → StandsAt self.old bytes taken → taken < 2 ^ 41
            → OnOk result (StandsAt self.new bytes taken × HasNext self.new bytes taken) }
        ensures name { string_bytes self.new.name ≡ string_bytes self.old.name }
        ensures same { F.held files.new ≡ F.held files.old }
        ensures failed { IsErrOf result FileFault.Failed
            → Rose (F.reads_failed files.old) (F.reads_failed files.new)
            ⊎ IsAbsent (F.held files.old) (string_bytes self.old.name) }
        ensures stays { result ≢ Err FileFault.Failed → F.reads_failed files.new ≡ F.reads_failed files.old }
        ensures later { F.reads_failed files.old ≤ F.reads_failed files.new }
        ensures writes { F.writes_failed files.new ≡ F.writes_failed files.old }
    {
        if self.at < self.part.len() {
            return Ok(());
        }
        self.hasher.update(self.part.as_slice());
        self.at = 0;
        files.read_part(self.name.as_str(), self.fetched, PART, &mut self.part)?;
        self.fetched = self.fetched.saturating_add(self.part.len() as u64);
        Ok(())
    }

    /// The SHA-256 of all that was taken.
    pub fn digest(&self) -> Result<Digest, AllocError>
        ensures { (bytes : List ℕ) (taken : ℕ) → StandsAt self.now bytes taken
            → IfOk result (λ d. d ≡ sha256 (take taken bytes)) }
    {
        let mut hasher = self.hasher.clone()?;
        hasher.update(&self.part[..self.part.len().min(self.at)]);
        Ok(hasher.finalize())
    }
}
