//! The traces that a command names, read one after another and added to a coverage.

ghost use Rattle.std.specs.Prelude.{◌≡◌, ℕ, List, [], ◌∷◌, ◌≤◌, ◌<◌, ◌-◌, length, map, IfErr, IfOk, IfSome, OnOk};
ghost use Rattle.cov_io.specs.Outside.{HoldsPart};
ghost use Rattle.commands.specs.Content.{IsConsolidatedFor, RefusesConsolidated};
ghost use Rattle.commands.specs.Covering.{AddsListed};
ghost use Rattle.commands.specs.Failures.{consolidated_status, added_status, opened_status};
ghost use Rattle.commands.specs.declared.status.Status.TheVariants.{TraceRefused};
ghost use Rattle.commands.specs.Reading.{WereAdded, StopsAt, StopsAmong, UnlessMemory, IsUnread, HasFront, RunWasAdded, StopsRun};
ghost use Rattle.coverage_set.specs.Consolidated.{IsReadOf};
ghost use Rattle.coverage_set.specs.Read.{IsOpened};
ghost use Rattle.object_format.specs.Checked.{IsSound};
ghost use Rattle.trace_format.specs.Reader.{file_name};

use crate::ready::read_file;
use crate::status::{FileRef, Status, TraceWhy};
use cov_base::Failure;
use cov_io::{FileFault, Files};
use coverage_set::{AddFault, Coverage, Join, read_consolidated};
use decision_map::DecisionMap;
use std::alloc::Global;
use trace_format::{ConsFault, ReaderFault, TraceReader};
use vector_rebuild::BrokenHistory;

/// The bytes that begin a consolidated file.
const CONSOLIDATED_MAGIC: [u8; 4] = *b"GCCV";

/// How many of a file's bytes are looked at to tell which of both it is.
const FRONT: usize = 8;

/// Adds what the traces of these names tell of runs of the object, in their order.
pub fn add_traces<'a, F: Files>(
    alloc: Global,
    decisions: &DecisionMap<'a>,
    names: &[&str],
    files: &mut F,
    coverage: &mut Coverage<'a>,
) -> Result<(), Status>
    requires few { length names.now ≤ 4096 }
    requires sound { IsSound decisions.now }
    requires object { decisions.now ≡ coverage.old.object }
    ensures object { coverage.new.object ≡ coverage.old.object }
    ensures added { OnOk result (WereAdded (F.held files.old) decisions.now
        (map (λ name. name.now) names.now) coverage.old coverage.new) }
    ensures reads { OnOk result (F.reads_failed files.new ≡ F.reads_failed files.old) }
    ensures stopped { IfErr result (StopsAmong decisions.now (map (λ name. name.now) names.now) (F.held files.old)
        (F.reads_failed files.old) (F.reads_failed files.new)) }
    ensures same { F.held files.new ≡ F.held files.old }
    ensures writes { F.writes_failed files.new ≡ F.writes_failed files.old }
{
    for place in 0..names.len() {
        add_file(
            alloc,
            decisions,
            place as u32 + 1,
            names[place],
            files,
            coverage,
        )?;
    }
    Ok(())
}

/// Adds what the file of this name tells, which has this number among the traces. It is a trace, which is
/// read in pieces, or a consolidated file, which is read whole, as its first bytes say.
fn add_file<'a, F: Files>(
    alloc: Global,
    decisions: &DecisionMap<'a>,
    number: u32,
    name: &str,
    files: &mut F,
    coverage: &mut Coverage<'a>,
) -> Result<(), Status>
    requires sound { IsSound decisions.now }
    requires object { decisions.now ≡ coverage.old.object }
    ensures object { coverage.new.object ≡ coverage.old.object }
    ensures added { OnOk result (WereAdded (F.held files.old) decisions.now (name.now ∷ []) coverage.old coverage.new) }
    ensures reads { OnOk result (F.reads_failed files.new ≡ F.reads_failed files.old) }
    ensures stopped { IfErr result (StopsAt number decisions.now name.now (F.held files.old)
        (F.reads_failed files.old) (F.reads_failed files.new)) }
    ensures same { F.held files.new ≡ F.held files.old }
    ensures writes { F.writes_failed files.new ≡ F.writes_failed files.old }
{
    let front = front_of(alloc, number, name, files)?;
    if front.as_slice().starts_with(&CONSOLIDATED_MAGIC) {
        let bytes = read_file(alloc, number, name, files)?;
        return add_consolidated(alloc, decisions, number, bytes.as_slice(), coverage);
    }
    add_trace(alloc, decisions, number, name, files, coverage)
}

/// The first bytes of the file with this number among the traces: 8 of them, or all where it has fewer.
fn front_of<F: Files>(
    alloc: Global,
    number: u32,
    name: &str,
    files: &mut F,
) -> Result<Vec<u8>, Status>
    ensures front { IfOk result (λ front. HasFront (F.held files.old) name.now front.items) }
    ensures reads { OnOk result (F.reads_failed files.new ≡ F.reads_failed files.old) }
    ensures unread { IfErr result (IsUnread number name.now (F.held files.old) (F.reads_failed files.old)
        (F.reads_failed files.new)) }
    ensures same { F.held files.new ≡ F.held files.old }
    ensures writes { F.writes_failed files.new ≡ F.writes_failed files.old }
{
    let mut front = Vec::new(alloc);
    let mut part = Vec::new(alloc);
    for _ in 0..FRONT {
        read_next(number, name, files, front.len(), &mut part)?;
        if part.is_empty() {
            return Ok(front);
        }
        front.extend_from_slice(part.as_slice())?;
        if front.len() >= FRONT {
            return Ok(front);
        }
    }
    Ok(front)
}

/// Reads the bytes behind the first ones of which a file's front has so many already.
fn read_next<F: Files>(
    number: u32,
    name: &str,
    files: &mut F,
    from: usize,
    part: &mut Vec<u8>,
) -> Result<(), Status>
    requires { from < 8 }
    ensures part { OnOk result (IfSome (F.held files.old) (HoldsPart name.now from part.new.items)) }
    ensures few { length part.new.items ≤ 8 - from }
    ensures reads { OnOk result (F.reads_failed files.new ≡ F.reads_failed files.old) }
    ensures unread { IfErr result (IsUnread number name.now (F.held files.old) (F.reads_failed files.old)
        (F.reads_failed files.new)) }
    ensures same { F.held files.new ≡ F.held files.old }
    ensures writes { F.writes_failed files.new ≡ F.writes_failed files.old }
{
    match files.read_part(name, from as u64, FRONT - from, part) {
        Ok(()) => Ok(()),
        Err(FileFault::Failed) => Err(Status::ReadFault {
            file: FileRef::Word(number),
        }),
        Err(FileFault::NoMemory) => Err(Status::WantOfMemory),
    }
}

/// Adds what a consolidated file lists of runs of the object.
fn add_consolidated<'a>(
    alloc: Global,
    decisions: &DecisionMap<'a>,
    number: u32,
    bytes: &[u8],
    coverage: &mut Coverage<'a>,
) -> Result<(), Status>
    requires { decisions.now ≡ coverage.old.object }
    ensures object { coverage.new.object ≡ coverage.old.object }
    ensures fits { OnOk result (IsConsolidatedFor decisions.now bytes.now) }
    ensures added { OnOk result (AddsListed coverage.old coverage.new bytes.now) }
    ensures refused { IfErr result (UnlessMemory (RefusesConsolidated number decisions.now bytes.now)) }
{
    let listed = listed_in(alloc, decisions, number, bytes)?;
    coverage.join(&listed)?;
    Ok(())
}

/// What the consolidated file with this number among the traces lists.
fn listed_in<'a>(
    alloc: Global,
    decisions: &DecisionMap<'a>,
    number: u32,
    bytes: &[u8],
) -> Result<Coverage<'a>, Status>
    ensures read { IfOk result (IsReadOf decisions.now bytes.now) }
    ensures refused { IfErr result (UnlessMemory (RefusesConsolidated number decisions.now bytes.now)) }
{
    match read_consolidated(alloc, decisions, bytes) {
        Ok(listed) => Ok(listed),
        Err(failure) => Err(refused_consolidated(number, failure)),
    }
}

/// Adds what the trace file of this name tells of a run of the object, which is read in pieces.
fn add_trace<F: Files>(
    alloc: Global,
    decisions: &DecisionMap<'_>,
    number: u32,
    name: &str,
    files: &mut F,
    coverage: &mut Coverage<'_>,
) -> Result<(), Status>
    requires sound { IsSound decisions.now }
    requires object { decisions.now ≡ coverage.old.object }
    ensures object { coverage.new.object ≡ coverage.old.object }
    ensures added { OnOk result (RunWasAdded (F.held files.old) decisions.now name.now coverage.old coverage.new) }
    ensures reads { OnOk result (F.reads_failed files.new ≡ F.reads_failed files.old) }
    ensures stopped { IfErr result (StopsRun number decisions.now name.now (F.held files.old)
        (F.reads_failed files.old) (F.reads_failed files.new)) }
    ensures same { F.held files.new ≡ F.held files.old }
    ensures writes { F.writes_failed files.new ≡ F.writes_failed files.old }
{
    let mut reader = match TraceReader::open(alloc, files, name) {
        Ok(reader) => reader,
        Err(failure) => return Err(unopened(number, failure)),
    };
    match coverage.add_read(decisions, files, &mut reader) {
        Ok(()) => Ok(()),
        Err(failure) => Err(refused_trace(number, failure)),
    }
}

/// The status of the trace with this number, where it fails a check.
fn refusal(number: u32, why: TraceWhy) -> Status
    ensures { result ≡ TraceRefused number why }
{
    Status::TraceRefused { index: number, why }
}

/// The status of the trace with this number, where its front was not read.
fn unopened(number: u32, failure: Failure<ReaderFault>) -> Status
    ensures { result ≡ opened_status number failure }
{
    match failure {
        Failure::Fault(ReaderFault::Read) => Status::ReadFault {
            file: FileRef::Word(number),
        },
        Failure::Fault(ReaderFault::Trace(why)) => refusal(number, TraceWhy::File(why)),
        Failure::WantOfMemory => Status::WantOfMemory,
    }
}

/// The status of the trace with this number, where it was not added.
fn refused_trace(number: u32, failure: Failure<AddFault>) -> Status
    ensures { result ≡ added_status number failure }
{
    match failure {
        Failure::Fault(AddFault::Read) => Status::ReadFault {
            file: FileRef::Word(number),
        },
        Failure::Fault(AddFault::Trace(why)) => refusal(number, TraceWhy::File(why)),
        Failure::Fault(AddFault::Fit(why)) => refusal(number, TraceWhy::Fit(why)),
        Failure::Fault(AddFault::Broken { at }) => refusal(
            number,
            TraceWhy::Broken(BrokenHistory { at }),
        ),
        Failure::WantOfMemory => Status::WantOfMemory,
    }
}

/// The status of the consolidated file with this number, where it was not read.
fn refused_consolidated(number: u32, failure: Failure<ConsFault>) -> Status
    ensures { result ≡ consolidated_status number failure }
{
    match failure {
        Failure::Fault(why) => refusal(number, TraceWhy::Consolidated(why)),
        Failure::WantOfMemory => Status::WantOfMemory,
    }
}
