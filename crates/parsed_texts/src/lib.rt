//! What parsed files ensure of their units: what the laws of legal programs ask of the text.
//!
//! `AreOfFiles` of `specs/Parsed.antt` says of library units that they are parsed from files, which are
//! lexed in their order and numbered as they come. The functions here do nothing: each carries a law of
//! the definitions as its contract.
#![tactic(auto)]

mod laws;

pub use laws::{
    conditions_of_files_stand_in_them, decisions_of_files_rise, files_have_texts,
    names_of_files_are_ascii, statements_of_files_rise, texts_have_choices,
    units_of_files_are_counted, units_of_files_rise,
};
pub use legal_counts::{
    instances_are_those_that_units_are, library_words_are_within_limits,
    parts_of_each_generic_have_tokens, words_are_within_limits,
};
pub use legal_texts::legal_programs_are_well_formed;
