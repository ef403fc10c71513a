//! Texts and files that lines make, piece by piece.

use crate::reply::Reply;
use crate::words::{number, split_word};
use sha2::{Digest, Sha256};
use std::alloc::Global;

/// Bytes under a name.
#[derive(Drop)]
struct Blob {
    name: String,
    bytes: Vec<u8>,
}

/// What the places of a part count.
#[derive(Clone, Copy)]
enum Unit {
    /// Lines from 1, of which the last is of the part.
    Line,
    /// Bytes from 0, of which the last is not.
    Byte,
}

/// The blobs that were begun, the latest last.
pub(crate) struct Blobs {
    blobs: Vec<Blob>,
}

// Written out: a derived drop is proved anew in each crate above.
impl Drop for Blobs {
    fn drop(self) {
        let Blobs { blobs: _ } = self;
    }
}

impl Blobs {
    pub(crate) fn new(alloc: Global) -> Blobs {
        Blobs {
            blobs: Vec::new(alloc),
        }
    }

    /// Begins a blob.
    pub(crate) fn begin(&mut self, alloc: Global, out: &mut Reply, text: &str) {
        let mut name = String::new(alloc);
        out.note(name.push_str(text));
        let bytes = Vec::new(alloc);
        out.note(self.blobs.push(Blob { name, bytes }));
    }

    /// The bytes of the blob that was begun last; none where there is no blob, and the line is refused.
    pub(crate) fn latest<'a>(&'a self, out: &mut Reply) -> &'a [u8] {
        match self.blobs.last() {
            Some(blob) => blob.bytes.as_slice(),
            None => {
                out.refuse("no such blob");
                b""
            }
        }
    }

    /// The bytes of the blob that has a name; none where there is no such blob, and the line is refused.
    pub(crate) fn named<'a>(&'a self, out: &mut Reply, name: &str) -> &'a [u8] {
        for blob in &self.blobs {
            if blob.name.as_str() == name {
                return blob.bytes.as_slice();
            }
        }
        out.refuse("no such blob");
        b""
    }

    /// Adds bytes so many times to the blob that was begun last.
    fn add(&mut self, out: &mut Reply, count: usize, bytes: &[u8]) {
        match self.blobs.last_mut() {
            Some(blob) => {
                for _ in 0..count {
                    out.note(blob.bytes.extend_from_slice(bytes));
                }
            }
            None => out.refuse("no such blob"),
        }
    }

    /// Adds the bytes that hexadecimal digits stand for, so many times.
    fn add_decoded(&mut self, alloc: Global, out: &mut Reply, count: &str, digits: &str) {
        match hex::decode(alloc, digits) {
            Ok(bytes) => {
                let count = number(out, count);
                self.add(out, count, bytes.as_slice());
            }
            Err(_) => out.refuse("no bytes"),
        }
    }

    /// Adds text so many times.
    fn add_repeated(&mut self, out: &mut Reply, words: &str) {
        let (count, text) = split_word(words);
        let count = number(out, count);
        self.add(out, count, text.as_bytes());
    }

    /// Adds the part of a blob between two places.
    fn add_part(&mut self, alloc: Global, out: &mut Reply, words: &str, unit: Unit) {
        let (name, ends) = split_word(words);
        let (from, to) = split_word(ends);
        let (from, to) = (number(out, from), number(out, to));
        let blob = self.named(out, name);
        let part = match unit {
            Unit::Line => lines_between(blob, from, to),
            Unit::Byte => blob.get(from..to),
        };
        let mut copy = Vec::new(alloc);
        match part {
            Some(part) => out.note(copy.extend_from_slice(part)),
            None => out.refuse("no number"),
        }
        self.add(out, 1, copy.as_slice());
    }

    /// Adds the piece that a command and its words stand for; `false` where it is no such command.
    pub(crate) fn add_piece(
        &mut self,
        alloc: Global,
        out: &mut Reply,
        command: &str,
        words: &str,
    ) -> bool {
        match command {
            "|" => {
                self.add(out, 1, words.as_bytes());
                self.add(out, 1, b"\n");
            }
            "+" => self.add(out, 1, words.as_bytes()),
            "*" => self.add_repeated(out, words),
            "hex" => self.add_decoded(alloc, out, "1", words),
            "many" => {
                let (count, digits) = split_word(words);
                self.add_decoded(alloc, out, count, digits);
            }
            "lines" => self.add_part(alloc, out, words, Unit::Line),
            "part" => self.add_part(alloc, out, words, Unit::Byte),
            "digest" => {
                let digest: [u8; 32] = Sha256::digest(self.latest(out)).into();
                self.add(out, 1, &digest);
            }
            _ => return false,
        }
        true
    }
}

/// The lines of a text between these, which are counted from 1, each with its end.
fn lines_between(text: &[u8], first: usize, last: usize) -> Option<&[u8]> {
    let mut line = 1usize;
    let mut from = 0;
    let mut to = 0;
    for (at, byte) in text.iter().enumerate() {
        if line < first {
            from = at + 1;
        }
        if line <= last {
            to = at + 1;
        }
        if *byte == b'\n' {
            line = line.saturating_add(1);
        }
    }
    text.get(from..to.max(from))
}
