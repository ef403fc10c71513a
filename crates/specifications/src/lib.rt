//! Specifications of subprograms and what they declare, bodies that complete them, and the actuals of
//! instances (Ada RM 2012, 6.1, 6.3, 6.3.1, 12.3 to 12.6).
//!
//! | Modules | Of |
//! |---|---|
//! | `specification`, `parameters`, `results`, `objects`, `alone`, `routines` | specifications: the parameters are the first objects of their subprogram, in a region of their own |
//! | `heads`, `typed`, `completion`, `conformance`, `closing` | bodies: one completes a declaration and conforms to it, or declares |
//! | the others | generics, and the actuals of their instances |
#![tactic(auto)]

mod actual;
mod alone;
mod closing;
mod completion;
mod conformance;
mod facts;
mod generics;
mod heads;
mod instantiation;
mod matching;
mod objects;
mod parameters;
mod passing;
mod profiles;
mod results;
mod routines;
mod specification;
mod typed;

pub use actual::{InstanceActual, given_types};
pub use alone::profile_alone;
pub use closing::{closed_by, mode_of};
pub use completion::complete;
pub use conformance::{Profile, conforming};
pub use facts::Lookup;
pub use generics::generic_named;
pub use heads::packaged_head;
pub use instantiation::Instantiation;
pub use passing::InstanceWalk;
pub use routines::{body_number, enter_routine, new_routine, owner, subprogram_declared};
pub use specification::specified;
pub use typed::{Head, head_of};
