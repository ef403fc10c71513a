//! Objects of programs: what sources come to before they are checked, and behind it what the object of
//! their program is, in definitions, laws and code.
//!
//! [`units_of`] gives the library units of sources, and how their exemption pragmas pair, or the first
//! fault for which there are no units; [`copies_of`] holds a legal program to the limits on instances and
//! nodes; [`object_of`] makes the object of a program that can be laid out, and [`closed`] its file. The laws
//! say that such an object passes the checks of objects, names its sources, and does what the program means,
//! on every input: no run traps; where a run ends, the program's execution ends, with the same ending, output
//! and events, and the transcript is disciplined; and runs end in time.
//!
//! Nothing here stands on the checker, so that this is proved beside it: `compiler` joins the two.
#![tactic(auto)]

mod building;
mod closing;
mod compiled;
mod expanding;
mod fault;
mod laws;
mod pragmas;
mod program_laws;
mod soundness;
mod sources;
mod units;

pub use building::object_of;
pub use closing::{Compiled, closed};
pub use compiled::{compiled_objects_pass_and_behave, legal_units_are_compilable};
pub use expanding::{copies_of, fault_at};
pub use fault::{SourceFault, Why};
pub use laws::objects_behave_as_their_programs;
pub use pragmas::Exemptions;
pub use program_laws::{
    legal_programs_are_light, legal_programs_are_of_their_text, legal_programs_can_be_laid,
    legal_programs_have_few_copies, legal_programs_have_sizes,
};
pub use soundness::{
    made_objects_pass_their_checks, obligations_stand_in_one_copy, rising_places_are_statements,
    roles_are_of_checks_structure_and_conditions, texts_are_bounded,
};
pub use sources::{built_objects_are_of_their_sources, legal_sources_are_not_refused};
pub use units::{ParsedSources, refused_sources_have_no_units, units_of};
