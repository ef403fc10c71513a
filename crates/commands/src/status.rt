//! What a call of the program comes to, and the line that tells it.

ghost use Rattle.std.specs.Prelude.{◌≡◌, None, Some, IfOk, string_bytes};
ghost use Rattle.commands.specs.declared.status.Status.TheVariants.{WantOfMemory};
ghost use Rattle.commands.specs.Lines.{number_of, line_of, object_word};
ghost use Rattle.commands.specs.TraceWords.{address_text, trace_text, place_text, fit_text, foreign_text, consolidated_text};

use decision_map::FitFault;
use object_format::ObjectFault;
use program_objects::Why;
use rv_machine::TrapWhy;
use std::alloc::{AllocError, Global};
use trace_format::{ConsFault, TraceFault};
use vector_rebuild::BrokenHistory;

/// A file that a command reads.
#[derive(Clone, Copy, Debug, PartialEq, Eq)]
pub enum FileRef {
    /// A file that the command names, by its place from 0 in the order of reading.
    Word(u32),
    /// A source that the object names, by its number there.
    Source(u32),
}

/// The check that a trace file fails.
#[derive(Clone, Copy, Debug, PartialEq, Eq)]
pub enum TraceWhy {
    /// One of the file alone.
    File(TraceFault),
    /// One of the file beside the object.
    Fit(FitFault),
    /// That each entry of the history follows one before it.
    Broken(BrokenHistory),
    /// One of a consolidated file, alone or beside the object.
    Consolidated(ConsFault),
}

/// What a call comes to.
#[derive(Clone, Copy, Debug, PartialEq, Eq)]
pub enum Status {
    /// The output was written and put.
    Done,
    /// The words are no command.
    Usage,
    /// The sources are no legal program. Files are counted from 0, lines and columns from 1.
    SourceRefused {
        file: u32,
        line: u32,
        col: u32,
        why: Why,
    },
    /// The object file fails a check.
    ObjectRefused {
        why: ObjectFault,
    },
    /// The trace file with this number, from 1, fails a check.
    TraceRefused {
        index: u32,
        why: TraceWhy,
    },
    /// This line of the input file, from 1, is no number of 32 bits.
    InputRefused {
        line: u64,
    },
    /// So many instructions were executed, and the run had not ended.
    OverBudget {
        count: u32,
    },
    /// The machine can't execute the instruction at this address.
    Trap {
        pc: u32,
        why: TrapWhy,
    },
    /// The source with this number in the object has another SHA-256 than the object keeps.
    SourceChanged {
        file: u32,
    },
    /// This file could not be read, or isn't there.
    ReadFault {
        file: FileRef,
    },
    /// The output could not be written or put.
    WriteFault,
    /// There was too little memory.
    WantOfMemory,
}

impl From<AllocError> for Status {
    ghost from_gives = { λ _ status. status ≡ WantOfMemory };

    fn from(_refused: AllocError) -> Self {
        Status::WantOfMemory
    }
}

/// Why a command makes nothing.
pub struct Refusal {
    pub status: Status,
    /// The name of the source that the status is of, where the object names it.
    pub source: Option<String>,
}

// Written out: a derived drop is proved anew in each crate above.
impl Drop for Refusal {
    fn drop(self) {
        let Refusal {
            status: _,
            source: _,
        } = self;
    }
}

impl From<Status> for Refusal {
    ghost from_gives = { λ status refusal. (refusal.status ≡ status) × (refusal.source ≡ None) };

    fn from(status: Status) -> Self {
        Refusal {
            status,
            source: None,
        }
    }
}

impl From<AllocError> for Refusal {
    ghost from_gives = { λ _ refusal. (refusal.status ≡ WantOfMemory) × (refusal.source ≡ None) };

    fn from(_refused: AllocError) -> Self {
        Refusal::from(Status::WantOfMemory)
    }
}

/// The line for words that are no command.
pub const USAGE_LINE: &str = "gnatcov: usage\n";

/// The line for an output that can't be written.
pub const WRITE_FAULT_LINE: &str = "gnatcov: cannot write\n";

/// The line for want of memory. It is a constant, since there is no memory to make one.
pub const OUT_OF_MEMORY_LINE: &str = "gnatcov: out of memory\n";

impl Status {
    /// The program's exit status.
    pub fn number(self) -> u8
        ensures { result ≡ number_of self }
    {
        match self {
            Status::Done => 0,
            Status::Usage => 1,
            Status::SourceRefused { .. } => 2,
            Status::ObjectRefused { .. } => 3,
            Status::TraceRefused { .. } => 4,
            Status::InputRefused { .. } => 5,
            Status::OverBudget { .. } => 6,
            Status::Trap { .. } => 7,
            Status::SourceChanged { .. } => 8,
            Status::ReadFault { .. } => 9,
            Status::WriteFault => 10,
            Status::WantOfMemory => 11,
        }
    }

    /// The line that tells the status, of the file of this name. Done has an empty one.
    pub fn line(self, alloc: Global, name: &str) -> Result<String, AllocError>
        ensures { IfOk result (λ line. string_bytes line ≡ line_of name.now self) }
    {
        match self {
            Status::Done => Ok(String::new(alloc)),
            Status::Usage => String::from_str(alloc, USAGE_LINE),
            Status::SourceRefused { line, col, why, .. } => {
                format!(in alloc; "gnatcov: {name}:{line}:{col}: {why}\n")
            }
            Status::ObjectRefused { why } => {
                let why = object_word(why);
                format!(in alloc; "gnatcov: object refused: {why}\n")
            }
            Status::TraceRefused { index, why } => {
                let why = trace_text(alloc, why)?;
                format!(in alloc; "gnatcov: trace {index} refused: {why}\n")
            }
            Status::InputRefused { line } => {
                format!(in alloc; "gnatcov: input line {line} refused\n")
            }
            Status::OverBudget { count } => {
                format!(in alloc; "gnatcov: over budget after {count} instructions\n")
            }
            Status::Trap { pc, why } => {
                let pc = address_text(alloc, pc)?;
                format!(in alloc; "gnatcov: trap at {pc}: {why}\n")
            }
            Status::SourceChanged { .. } => {
                format!(in alloc; "gnatcov: source changed: {name}\n")
            }
            Status::ReadFault { .. } => format!(in alloc; "gnatcov: cannot read {name}\n"),
            Status::WriteFault => String::from_str(alloc, WRITE_FAULT_LINE),
            Status::WantOfMemory => String::from_str(alloc, OUT_OF_MEMORY_LINE),
        }
    }
}

/// The word for why an object is refused.
fn object_word(why: ObjectFault) -> &'static str
    ensures { result.now ≡ object_word why }
{
    match why {
        ObjectFault::Short => "short",
        ObjectFault::Magic => "magic",
        ObjectFault::Version => "version",
        ObjectFault::Long => "long",
        ObjectFault::Damaged => "damaged",
        ObjectFault::Field => "field",
        ObjectFault::Decision => "decision",
        ObjectFault::Row => "row",
        ObjectFault::Role => "role",
    }
}

/// The words for why a trace is refused.
fn trace_text(alloc: Global, why: TraceWhy) -> Result<String, AllocError>
    ensures { IfOk result (λ text. string_bytes text ≡ trace_text why) }
{
    match why {
        TraceWhy::File(TraceFault::Short) => String::from_str(alloc, "short"),
        TraceWhy::File(TraceFault::Magic) => String::from_str(alloc, "magic"),
        TraceWhy::File(TraceFault::Version) => String::from_str(alloc, "version"),
        TraceWhy::File(TraceFault::Long) => String::from_str(alloc, "long"),
        TraceWhy::File(TraceFault::Damaged) => String::from_str(alloc, "damaged"),
        TraceWhy::File(TraceFault::Order { at }) => place_text(alloc, "order", u64::from(at)),
        TraceWhy::File(TraceFault::Flag { at }) => place_text(alloc, "flag", u64::from(at)),
        TraceWhy::Fit(why) => fit_text(alloc, why),
        TraceWhy::Broken(BrokenHistory { at }) => {
            place_text(alloc, "broken history", u64::from(at))
        }
        TraceWhy::Consolidated(why) => consolidated_text(alloc, why),
    }
}

/// The words for why a consolidated file is refused.
fn consolidated_text(alloc: Global, why: ConsFault) -> Result<String, AllocError>
    ensures { IfOk result (λ text. string_bytes text ≡ consolidated_text why) }
{
    match why {
        ConsFault::Short => String::from_str(alloc, "short"),
        ConsFault::Magic => String::from_str(alloc, "magic"),
        ConsFault::Version => String::from_str(alloc, "version"),
        ConsFault::Long => String::from_str(alloc, "long"),
        ConsFault::Damaged => String::from_str(alloc, "damaged"),
        ConsFault::Order { at } => place_text(alloc, "order", at),
        ConsFault::Flag { at } => place_text(alloc, "flag", at),
        ConsFault::Foreign { kept, object } => foreign_text(alloc, &kept, &object),
        ConsFault::Start { at } => place_text(alloc, "start", at),
        ConsFault::Vector { at } => place_text(alloc, "vector", at),
    }
}

/// The words for why a trace is none of an object's runs.
fn fit_text(alloc: Global, why: FitFault) -> Result<String, AllocError>
    ensures { IfOk result (λ text. string_bytes text ≡ fit_text why) }
{
    match why {
        FitFault::Foreign { kept, object } => foreign_text(alloc, &kept, &object),
        FitFault::Ending => String::from_str(alloc, "flag"),
        FitFault::NotABlock { start } => {
            let start = address_text(alloc, start)?;
            format!(in alloc; "not a block at {start}")
        }
        FitFault::Edge { start } => {
            let start = address_text(alloc, start)?;
            format!(in alloc; "edge at {start}")
        }
        FitFault::HistoryAddress { at } => place_text(alloc, "history address", u64::from(at)),
        FitFault::HistoryNotFlat { at } => place_text(alloc, "history not flat", u64::from(at)),
    }
}

/// The words for a file of another object: the digest that it keeps, and that of the object.
fn foreign_text(alloc: Global, kept: &[u8], object: &[u8]) -> Result<String, AllocError>
    ensures { IfOk result (λ text. string_bytes text ≡ foreign_text kept.now object.now) }
{
    let kept = hex::encode(alloc, kept)?;
    let object = hex::encode(alloc, object)?;
    format!(in alloc; "foreign: kept {kept}, object {object}")
}

/// The name of a check, and the entry that fails it, counted from 0 in its list.
fn place_text(alloc: Global, name: &str, at: u64) -> Result<String, AllocError>
    ensures { IfOk result (λ text. string_bytes text ≡ place_text name.now at) }
{
    format!(in alloc; "{name} at {at}")
}

/// An address in eight hexadecimal digits.
fn address_text(alloc: Global, pc: u32) -> Result<String, AllocError>
    ensures { IfOk result (λ text. string_bytes text ≡ address_text pc) }
{
    hex::encode(alloc, pc.to_be_bytes().as_slice())
}
