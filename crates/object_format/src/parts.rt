//! The parts of an object.

ghost use Rattle.std.specs.Prelude.{◌≡◌};
ghost use Rattle.object_format.specs.File.{with_digest};
ghost use Rattle.object_format.specs.Layout.{parts};
ghost use Rattle.object_format.specs.LayoutLaws.{parts_ok};

use crate::layout::read_parts;
use crate::object::{FileEntry, Object};
use cov_base::{Digest, Failure, Obligations, Seq};
use line_table::{Roles, Rows};
use spelling::{Formatted, Readable, Short};
use std::alloc::Global;

/// What an object's file holds between its version and its digest.
#[derive(Drop)]
pub struct Parts {
    pub entry: u32,
    pub text: Seq<u32>,
    pub init_at: u32,
    pub init: Seq<u32>,
    pub files: Seq<FileEntry>,
    pub obligations: Obligations,
    pub rows: Rows,
    pub roles: Roles,
}

impl Parts {
    /// The object of these parts, with a closing digest.
    pub fn with_digest(self, closing: Digest) -> Object
        ensures { result ≡ with_digest self closing }
    {
        Object {
            entry: self.entry,
            text: self.text,
            init_at: self.init_at,
            init: self.init,
            files: self.files,
            obligations: self.obligations,
            rows: self.rows,
            roles: self.roles,
            closing,
        }
    }
}

impl Formatted for Parts {
    ghost format = { parts };

    ghost is_format = { parts_ok };
}

impl Readable for Parts {
    fn read(alloc: Global, bytes: &[u8]) -> Result<(Parts, &[u8]), Failure<Short>> {
        read_parts(alloc, bytes)
    }
}
