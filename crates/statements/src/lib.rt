//! Statements (Ada RM 2012, 5, 6.4, 6.5, 11.2, 11.3), as the rules look at them.
//!
//! [`all_stated`] comes to what the rules say of statements in order, and [`all_handled`] to what they say
//! of the statements and the handlers of a body or a block, with the state that the walk has then. Where
//! they succeed, the same regions are open as before, with the same names in them: loops and blocks close
//! theirs. Where a statement is refused, it is at the rules' own place, and the tables still begin with
//! what was declared before.
#![tactic(auto)]

mod laws;
mod loops;
mod nested;
mod simple;

pub use declarations::all_declared;
pub use laws::statements_have_parts;
pub use nested::{Frame, all_handled, all_stated};
pub use simple::{
    any_exit_at, any_raise_at, any_return_at, assignment_at, call_at, exit_at, exit_when_at,
    null_at, raise_again_at, raise_at, return_at, return_value_at,
};
pub use statement_parts::frame_returns;
