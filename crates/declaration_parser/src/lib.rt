//! Declarations, specifications, formal parameters and pragmas: from tokens to trees (Ada RM 2012, 2.8,
//! 3, 6.1, 11.1, 12).
//!
//! The grammar stands in `specs/` as what token lists derive, a case for each production; it knows
//! nothing of the parser. Productions open with an [`Extent`](expression_parser::Extent). The tokens are
//! read with one of them in view; that this reading is the derivation is proved in `proofs/`, for every
//! extent.
//!
//! The contract that the layers above use: [`initial`], [`range`], [`indication`], [`specification`],
//! [`exemption_pragma`], [`declaration`], [`local_declarations`] and [`formals`] answer what is read;
//! [`closed_by`] takes a word behind it, and [`paired`] a part.
#![tactic(auto)]

mod declarations;
mod generics;
mod parts;
mod pragmas;
mod profiles;
mod subtypes;
mod values;
mod words;

pub use crate::declarations::{begins_declaration, declaration, local_declarations};
pub use crate::generics::formals;
pub use crate::parts::paired;
pub use crate::pragmas::exemption_pragma;
pub use crate::profiles::specification;
pub use crate::subtypes::{bounds, indication, range};
pub use crate::values::initial;
pub use crate::words::{closed_by, identifiers};
