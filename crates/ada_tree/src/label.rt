//! The labels of obligations.

use cov_base::Pos;

/// The number of a statement obligation or of a decision, and the place of its first token.
#[derive(Clone, Copy)]
pub struct Label {
    pub number: u32,
    pub place: Pos,
}
