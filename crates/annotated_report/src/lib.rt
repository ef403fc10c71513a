//! The report of coverage: what the runs of a program leave to show of its obligations, as lines of
//! text.
//!
//! The contract that the layers above use: [`report`] gives the text that the definitions give to a
//! level, obligations, a number of traces, a list of events and the names of the files. That text
//! depends on which events there are, and not on their order or on how often one is there. Its verdicts
//! are those of the definitions ([`verdicts_are_those_of_the_definitions`]), and it ends in the least
//! pairs of vectors of these events, one for each condition that has a pair
//! ([`the_report_ends_in_all_least_pairs`]).
//!
//! [`covered_totals`] gives the lines of the totals alone.
//!
//! A layer that prints the same verdicts in another form uses the parts. [`started`] and [`collect`]
//! sort events by statement and by decision; [`outcomes`], [`shown_pair`] and [`in_order_once`] say
//! what the vectors of a decision show; [`judge`] finds what is left to show at a level, which
//! [`violations`] and [`exempted`] divide by regions and [`held_counts`] counts by them; [`level_word`]
//! and [`vector_text`] are the words.
#![tactic(auto)]

mod conditions;
mod counting;
mod decisions;
mod evaluations;
mod finding;
mod held;
mod judgement;
mod laws;
mod lines;
mod marking;
mod ordered;
mod printing;
mod regions;
mod selection;
mod shown;
mod statements;
mod verdict;
mod words;

pub use conditions::Found;
pub use counting::covered_totals;
pub use evaluations::{Evaluations, collect};
pub use finding::{Finding, Key, Missing, PairLine, Subject};
pub use held::held_counts;
pub use judgement::{Judged, judge};
pub use laws::{
    pairs_are_of_events, the_report_ends_in_all_least_pairs, the_text_depends_on_the_set_of_events,
    verdicts_are_those_of_the_definitions,
};
pub use marking::started;
pub use ordered::in_order_once;
pub use printing::report;
pub use regions::Regions;
pub use selection::{exempted, violations};
pub use shown::vector_text;
pub use verdict::{outcomes, shown_pair};
pub use words::{asks_outcomes, asks_pairs, level_word};
