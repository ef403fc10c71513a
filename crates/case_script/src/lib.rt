//! Scripts of cases: files that are written line by line or changed, calls of gnatcov, and what is shown of
//! files. [`Line`] has the language.
//!
//! [`Script::play`] does all that a line asks for but the call itself: that is the caller's to make, over real
//! files or over those of a [`Trial`], and [`put_answer`] or [`put_outcome`] puts what came of it.
#![tactic(auto)]

mod answer;
mod change;
mod fault;
mod line;
mod script;
mod trial;

pub use answer::put_answer;
pub use change::{closed, spliced};
pub use fault::ScriptFault;
pub use line::{Line, Making, Opening, Place, Plan, Shown};
pub use script::{Asked, Call, Script};
pub use trial::{Trial, put_outcome};
