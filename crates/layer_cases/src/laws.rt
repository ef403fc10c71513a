//! The laws of the layers: functions that do nothing, each with a law as its contract. Each is called
//! once.

use ada_resolved::sizes_are_exact;
use annotated_report::{
    pairs_are_of_events, the_report_ends_in_all_least_pairs, the_text_depends_on_the_set_of_events,
    verdicts_are_those_of_the_definitions,
};
use coverage_set::{
    a_coverage_has_one_file, own_traces_pass_all_checks, traces_of_runs_say_what_the_runs_tell,
    unions_have_their_laws,
};
use object_format::{an_object_is_laid_out, one_object};
use rv_isa::{one_word, read_again};
use spelling::{one_spelling, one_value};
use trace_format::{one_trace, passing};
use trace_record::histories_are_no_longer_than_runs;

/// Calls the laws.
pub(crate) fn call_laws() {
    read_again();
    one_word();
    sizes_are_exact();
    one_value::<u32>();
    one_spelling::<u32>();
    one_object();
    an_object_is_laid_out();
    one_trace();
    passing();
    histories_are_no_longer_than_runs();
    unions_have_their_laws();
    a_coverage_has_one_file();
    traces_of_runs_say_what_the_runs_tell();
    own_traces_pass_all_checks();
    the_text_depends_on_the_set_of_events();
    pairs_are_of_events();
    the_report_ends_in_all_least_pairs();
    verdicts_are_those_of_the_definitions();
}
