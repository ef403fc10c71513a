//! The state of the walk over a program: what names lead to, what has to be static, and what was found
//! (Ada RM 2012, 3.1, 4.9, 8.1 to 8.3).
//!
//! Types and subprograms are known by number, and the tables that they stand in only grow. So contracts
//! speak of every `k` that begins with what the table keeps so far, such as that of the end of the walk:
//! what was once said of a number stays true. [`Symbols`] takes in nothing whose numbers lead nowhere,
//! and [`Site`] lets out nothing of the kind.
//!
//! [`Context`] is what a construct is looked at in, besides what is declared so far. [`Walk`] has that,
//! and the state of the walk: its counters, and all that was found. `specs/Walks.antt` says what both are
//! of the rules' definitions, whatever tables begin with what is there: each function of the layers above
//! comes to what the rules say of its construct (`ComesTo`), and `specs/Going.antt` how the walk goes on
//! behind it.
//!
//! | Modules | Of |
//! |---|---|
//! | `symbols`, `site`, `extent`, `changes`, `composite`, `generics`, `marks`, `unit_generics`, `table_laws` | types, subprograms, units and the regions round a place, as they grow |
//! | `place`, `asks`, `part`, `bounds`, `index` | expressions that have to be static |
//! | the others | where the walk stands, and what it has found |
#![tactic(auto)]

mod asks;
mod bounds;
mod changes;
mod composite;
mod context;
mod counts;
mod extent;
mod found;
mod generics;
mod index;
mod laws;
mod marks;
mod part;
mod place;
mod site;
mod symbols;
mod table_laws;
mod unit_generics;
mod walk;

pub use ada_demands::{Instances, Statics};
pub use ada_phrases::{Decisions, Role, Step};
pub use asks::{Accepted, Asks};
pub use context::{Context, Level, Returning};
pub use counts::Counts;
pub use found::{DeclaredType, Found, SubprogramWords, UnitWords, Word};
pub use laws::walks_follow;
pub use marks::Marked;
pub use part::Valued;
pub use place::{Notes, Place};
pub use site::Site;
pub use symbols::Symbols;
pub use table_laws::{places_follow, units_follow, walks_begin_and_end};
pub use unit_generics::generic_of;
pub use walk::Walk;
