//! What a linked program is.

use cov_base::Seq;
use line_table::{Roles, Rows};

/// A program as it stands in memory: the address of its first instruction, the words of its text,
/// which stand from `rv_semantics::TEXT_START` on, the address and the words of its data, and the
/// rows and roles of its text.
#[derive(Drop)]
pub struct Image {
    pub entry: u32,
    pub text: Seq<u32>,
    pub init_at: u32,
    pub init: Seq<u32>,
    pub rows: Rows,
    pub roles: Roles,
}
