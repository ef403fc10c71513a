//! The check `field`: what each part of an object has to be by itself.

ghost use Rattle.std.specs.Prelude.{◌≡◌, slice_get};
ghost use Rattle.std.specs.List.{list_all};
ghost use Rattle.std.specs.Str.{is_utf8};
ghost use Rattle.object_format.specs.Fields.{is_placed, are_files, is_counted, is_outside_generics, is_instance, are_instances, are_predefined, are_exceptions, is_statement, are_statements, is_letter, is_decision, are_decisions, is_region, are_regions, is_row, condition_count, is_condition_role, is_other_role, is_role, are_obliged, passes_field};

use crate::checks::order::{decisions_stay, regions_rise, statements_rise};
use crate::checks::text::is_in_text;
use crate::object::{FileEntry, MEMORY_END, Object, TEXT_START};
use cov_base::{
    CondIx, DecEntry, DecId, ExceptionName, InstId, InstanceEntry, Letter, Obligations, Place,
    Region, StmtEntry,
};
use line_table::{Role, RoleKind, Row};
use std::str;

/// The most words of text.
const MAX_WORDS: usize = 4_194_304;

/// The most files.
const MAX_FILES: usize = 64;

/// The most instances beside number 0.
const MAX_INSTANCES: usize = 64;

/// The most exceptions beside the language's own four.
const MAX_DECLARED: usize = 4_294_967_290;

/// The most conditions of a decision.
const MAX_CONDITIONS: usize = 32;

/// Whether all parts of an object are by themselves as the format wants them.
pub(crate) fn passes_field(value: &Object) -> bool
    ensures { result ≡ passes_field value.now }
{
    let due = &value.obligations;
    let statements = due.statements.len();
    let instances = due.instances.len();
    let decisions = due.decisions.as_slice();
    is_placed(value)
        && are_files(value.files.as_slice())
        && are_obliged(due, value.files.len())
        && each_row(value.rows.as_slice(), statements, instances)
        && each_role(value.roles.as_slice(), decisions, instances)
}

/// Whether text, entry and data stand where they may.
fn is_placed(value: &Object) -> bool
    ensures { result ≡ is_placed value.now }
{
    let words = value.text.len();
    if words == 0 || words > MAX_WORDS {
        return false;
    }
    let text_end = TEXT_START + 4 * words as u32;
    is_in_text(value.text.as_slice(), value.entry)
        && value.init_at % 4 == 0
        && text_end <= value.init_at
        && value.init_at <= MEMORY_END
        && value.init.len() <= ((MEMORY_END - value.init_at) / 4) as usize
}

/// Whether bytes are UTF-8.
fn is_text(bytes: &[u8]) -> bool
    ensures { result ≡ is_utf8 bytes.now }
{
    match str::from_utf8(bytes) {
        Ok(_) => true,
        Err(_) => false,
    }
}

/// Whether a line and a column count from 1.
fn is_counted(line: u32, column: u32) -> bool
    ensures { result ≡ is_counted line column }
{
    line > 0 && column > 0
}

fn are_files(files: &[FileEntry]) -> bool
    ensures { result ≡ are_files files.now }
{
    !files.is_empty() && files.len() <= MAX_FILES && each_file(files)
}

/// Whether the parts that coverage has to show are by themselves as the format wants them.
fn are_obliged(due: &Obligations, files: usize) -> bool
    ensures { result ≡ are_obliged files due.now }
{
    are_instances(due.instances.as_slice(), files)
        && are_exceptions(due.exceptions.as_slice())
        && are_statements(due.statements.as_slice(), files)
        && are_decisions(due.decisions.as_slice(), files, due.statements.len())
        && are_regions(due.regions.as_slice(), files)
}

fn is_outside_generics(instance: &InstanceEntry) -> bool
    ensures { result ≡ is_outside_generics instance.now }
{
    instance.name.len() == 0 && instance.file == 0 && instance.line == 0 && instance.column == 0
}

fn is_instance(instance: &InstanceEntry, files: usize) -> bool
    ensures { result ≡ is_instance files instance.now }
{
    is_text(instance.name.as_slice())
        && (instance.file as usize) < files
        && is_counted(instance.line, instance.column)
}

fn are_instances(instances: &[InstanceEntry], files: usize) -> bool
    ensures { result ≡ are_instances files instances.now }
{
    let Some((outside, instances)) = instances.split_first() else {
        return false;
    };
    is_outside_generics(outside)
        && instances.len() <= MAX_INSTANCES
        && each_instance(instances, files)
}

/// Whether these are the names of the language's own exceptions.
fn are_predefined(a: &[u8], b: &[u8], c: &[u8], d: &[u8]) -> bool
    ensures { result ≡ are_predefined a.now b.now c.now d.now }
{
    a == b"constraint_error".as_slice()
        && b == b"program_error".as_slice()
        && c == b"storage_error".as_slice()
        && d == b"test_io.end_error".as_slice()
}

fn are_exceptions(names: &[ExceptionName]) -> bool
    ensures { result ≡ are_exceptions names.now }
{
    let [a, b, c, d, declared @ ..] = names else {
        return false;
    };
    are_predefined(a.as_slice(), b.as_slice(), c.as_slice(), d.as_slice())
        && declared.len() <= MAX_DECLARED
        && each_name(declared)
}

fn is_statement(statement: &StmtEntry, files: usize) -> bool
    ensures { result ≡ is_statement files statement.now }
{
    (statement.file as usize) < files && is_counted(statement.line, statement.column)
}

fn are_statements(statements: &[StmtEntry], files: usize) -> bool
    ensures { result ≡ are_statements files statements.now }
{
    each_statement(statements, files) && statements_rise(statements)
}

fn is_letter(letter: Letter) -> bool
    ensures { result ≡ is_letter letter.0 }
{
    letter == Letter::IF
        || letter == Letter::WHILE
        || letter == Letter::EXIT
        || letter == Letter::EXPRESSION
}

fn is_decision(decision: &DecEntry, files: usize, statements: usize) -> bool
    ensures { result ≡ is_decision files statements decision.now }
{
    (decision.statement.0 as usize) < statements
        && (decision.file as usize) < files
        && is_counted(decision.line, decision.column)
        && is_letter(decision.letter)
        && decision.conditions.len() > 0
        && decision.conditions.len() <= MAX_CONDITIONS
        && each_place(decision.conditions.as_slice())
}

fn are_decisions(decisions: &[DecEntry], files: usize, statements: usize) -> bool
    ensures { result ≡ are_decisions files statements decisions.now }
{
    each_decision(decisions, files, statements) && decisions_stay(decisions)
}

fn is_region(region: &Region, files: usize) -> bool
    ensures { result ≡ is_region files region.now }
{
    (region.file as usize) < files
        && is_counted(region.from_line, region.from_column)
        && is_counted(region.to_line, region.to_column)
        && is_text(region.why.as_slice())
}

fn are_regions(regions: &[Region], files: usize) -> bool
    ensures { result ≡ are_regions files regions.now }
{
    each_region(regions, files) && regions_rise(regions)
}

fn is_row(row: &Row, statements: usize, instances: usize) -> bool
    ensures { result ≡ is_row statements instances row.now }
{
    (row.statement.0 as usize) < statements && (row.instance.0 as usize) < instances
}

/// How many conditions a decision has: none where there is no such decision.
pub(crate) fn condition_count(decisions: &[DecEntry], decision: DecId) -> usize
    ensures { result ≡ condition_count (slice_get decisions.now decision.0) }
{
    match decisions.get(decision.0 as usize) {
        Some(found) => found.conditions.len(),
        None => 0,
    }
}

fn is_condition_role(role: &Role, decisions: &[DecEntry], instances: usize) -> bool
    ensures { result ≡ is_condition_role decisions.now instances role.now }
{
    role.kind == RoleKind::CONDITION
        && (role.condition.0 as usize) < condition_count(decisions, role.decision)
        && role.value <= 1
        && (role.instance.0 as usize) < instances
}

/// Whether a role is a check or structure, with zeros.
fn is_other_role(role: &Role) -> bool
    ensures { result ≡ is_other_role role.now }
{
    role.kind < RoleKind::CONDITION
        && role.decision == DecId(0)
        && role.condition == CondIx(0)
        && role.value == 0
        && role.instance == InstId(0)
}

fn each_file(files: &[FileEntry]) -> bool
    ensures { result ≡ list_all (λ f. is_utf8 f.name) files.now }
{
    files.iter().all(|file| is_text(file.name.as_slice()))
}

fn each_instance(instances: &[InstanceEntry], files: usize) -> bool
    ensures { result ≡ list_all (is_instance files) instances.now }
{
    instances
        .iter()
        .all(|instance| is_instance(instance, files))
}

fn each_name(names: &[ExceptionName]) -> bool
    ensures { result ≡ list_all is_utf8 names.now }
{
    names.iter().all(|name| is_text(name.as_slice()))
}

fn each_statement(statements: &[StmtEntry], files: usize) -> bool
    ensures { result ≡ list_all (is_statement files) statements.now }
{
    statements
        .iter()
        .all(|statement| is_statement(statement, files))
}

fn each_decision(decisions: &[DecEntry], files: usize, statements: usize) -> bool
    ensures { result ≡ list_all (is_decision files statements) decisions.now }
{
    decisions
        .iter()
        .all(|decision| is_decision(decision, files, statements))
}

fn each_place(places: &[Place]) -> bool
    ensures { result ≡ list_all (λ p. is_counted p.line p.column) places.now }
{
    places
        .iter()
        .all(|place| is_counted(place.line, place.column))
}

fn each_region(regions: &[Region], files: usize) -> bool
    ensures { result ≡ list_all (is_region files) regions.now }
{
    regions.iter().all(|region| is_region(region, files))
}

fn each_row(rows: &[Row], statements: usize, instances: usize) -> bool
    ensures { result ≡ list_all (is_row statements instances) rows.now }
{
    rows.iter().all(|row| is_row(row, statements, instances))
}

fn each_role(roles: &[Role], decisions: &[DecEntry], instances: usize) -> bool
    ensures { result ≡ list_all (is_role decisions.now instances) roles.now }
{
    roles.iter().all(|role| is_role(role, decisions, instances))
}

fn is_role(role: &Role, decisions: &[DecEntry], instances: usize) -> bool
    ensures { result ≡ is_role decisions.now instances role.now }
{
    is_other_role(role) || is_condition_role(role, decisions, instances)
}
