//! What a walk over all units has left, and what becomes of it (Ada RM 2012, 10.2): the demands on static
//! values, the counted limits, and the typed program ([`program`]). `specs/Judging.antt` says what such a
//! walk comes to, `specs/Checking.antt` what a refusal is; that each refusal has a reason is
//! [`a_refusal_is_of_a_broken_rule`].
//!
//! Nothing here walks over the text, so that this is proved beside the walk: `checker` joins the two.
#![tactic(auto)]

mod behind;
mod fault;
mod laws;
mod whole_walk;

pub use ada_demands::Instances;
pub use behind::{naming, program, typing};
pub use fault::CheckFault;
pub use laws::a_refusal_is_of_a_broken_rule;
pub use typed_program::discard_program;
pub use whole_walk::{WholeWalk, discard_walk};
