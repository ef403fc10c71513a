//! What the words and branches of an object mean, and whether a trace can be one of that object.
//!
//! The contract that the layers above use: [`DecisionMap::fit`] answers the first of the checks from
//! `foreign` to `history not flat` that a trace fails beside the map's object, and Ok exactly where
//! none does. [`FitState`] answers the same of entries that come one by one. A [`DecisionMap`] stands
//! for its object, and each look-up answers what the definitions say of that object. All calls but
//! [`DecisionMap::of`] and [`FitState::new`] take no memory.
#![tactic(auto)]

mod blocks;
mod checked;
mod condition;
mod fault;
mod fit;
mod fit_state;
mod graphs;
mod keep;
mod kind;
mod map;
mod places;
mod role_hints;

pub use checked::checked_objects_have_maps;
pub use condition::Condition;
pub use fault::FitFault;
pub use fit_state::FitState;
pub use kind::WordKind;
pub use map::DecisionMap;
pub use role_hints::RoleHints;
