//! What an object file holds.

use cov_base::{Bytes, Digest, Obligations, Seq};
use line_table::{Roles, Rows};

/// Where text stands in memory.
pub const TEXT_START: u32 = 0x0001_0000;

/// The end of memory: the address behind its last byte.
pub const MEMORY_END: u32 = 0x0200_0000;

/// A source file as an object names it: its name, and the SHA-256 of its bytes.
pub struct FileEntry {
    pub name: Bytes,
    pub sha256: Digest,
}

// Written out: a derived drop is proved anew in each crate above.
impl Drop for FileEntry {
    fn drop(self) {
        let FileEntry { name: _, sha256: _ } = self;
    }
}

/// What an object file holds: the address of the first instruction, the words of text, which stand
/// at [`TEXT_START`], the words of data and their address, the sources, what coverage has to show of
/// them, the rows and roles of the text, and the digest at the file's end.
pub struct Object {
    pub entry: u32,
    pub text: Seq<u32>,
    pub init_at: u32,
    pub init: Seq<u32>,
    pub files: Seq<FileEntry>,
    pub obligations: Obligations,
    pub rows: Rows,
    pub roles: Roles,
    pub closing: Digest,
}

// Written out: a derived drop is proved anew in each crate above.
impl Drop for Object {
    fn drop(self) {
        let Object {
            entry: _,
            text: _,
            init_at: _,
            init: _,
            files: _,
            obligations: _,
            rows: _,
            roles: _,
            closing: _,
        } = self;
    }
}
