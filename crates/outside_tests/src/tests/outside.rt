//! Files and sinks, of the system and in memory: calls in a row, and what has to come of each.

use super::entry;
use super::faltering::{Faltering, Narrow};
use cov_io::{FileFault, Files, HostFiles, HostSink, MemFiles, MemSink, Sink, SinkFailed};
use std::alloc::{AllocError, Global};
use std::{fs, rt};

/// A call of files, and what has to come of it.
#[derive(Clone, Copy)]
enum Call<'a> {
    /// This file is read, and has these bytes.
    Reads(&'a str, &'a [u8]),
    /// It is not read, and leaves no bytes.
    FailsToRead(&'a str),
    /// Of this file the part from a place on, of at most so many bytes, has these.
    ReadsPart(&'a str, u64, usize, &'a [u8]),
    /// No part of it is read, and no bytes are left.
    FailsToReadPart(&'a str),
    /// These bytes are written to it.
    Writes(&'a str, &'a [u8]),
    /// They are not.
    FailsToWrite(&'a str, &'a [u8]),
}

/// A call, and how many reads and writes have failed then.
#[derive(Clone, Copy)]
struct Step<'a> {
    call: Call<'a>,
    faults: (u64, u64),
}

/// Whether a call comes to what it has to. What is read replaces the bytes of an earlier read.
fn comes<F: Files>(files: &mut F, into: &mut Vec<u8>, call: Call<'_>) -> bool {
    match call {
        Call::Reads(name, bytes) => files.read(name, into) == Ok(()) && into.as_slice() == bytes,
        Call::FailsToRead(name) => {
            files.read(name, into) == Err(FileFault::Failed) && into.is_empty()
        }
        Call::ReadsPart(name, from, most, bytes) => {
            files.read_part(name, from, most.max(1), into) == Ok(()) && into.as_slice() == bytes
        }
        Call::FailsToReadPart(name) => {
            files.read_part(name, 0, 1, into) == Err(FileFault::Failed) && into.is_empty()
        }
        Call::Writes(name, bytes) => files.write(name, bytes) == Ok(()),
        Call::FailsToWrite(name, bytes) => files.write(name, bytes) == Err(FileFault::Failed),
    }
}

/// Whether so many reads and writes have failed.
fn has_counted<F: Files>(files: &F, faults: (u64, u64)) -> bool {
    (files.read_faults(), files.write_faults()) == faults
}

/// Whether calls come to what they have to, in their order.
fn come<F: Files>(alloc: Global, files: &mut F, steps: &[Step<'_>]) -> bool {
    let mut into = Vec::new(alloc);
    for step in steps {
        if !comes(files, &mut into, step.call) || !has_counted(files, step.faults) {
            return false;
        }
    }
    true
}

/// Files in memory, of which `a` holds `old` and `b` holds `kept`, that fail at these calls.
fn files_in_memory(alloc: Global, failing: &[u64]) -> Result<MemFiles, AllocError> {
    let mut contents = Vec::new(alloc);
    contents.push(entry(alloc, "a", b"old")?)?;
    contents.push(entry(alloc, "b", b"kept")?)?;
    Ok(MemFiles::new(contents, Vec::from_slice(alloc, failing)?))
}

/// Whether calls of files in memory come to what they have to.
fn come_in_memory(alloc: Global, failing: &[u64], steps: &[Step<'_>]) -> Result<bool, AllocError> {
    let mut files = files_in_memory(alloc, failing)?;
    Ok(come(alloc, &mut files, steps))
}

static WRITTEN: [Step<'static>; 8] = [
    Step {
        call: Call::Writes("a", b"new"),
        faults: (0, 0),
    },
    Step {
        call: Call::Writes("c", b"added"),
        faults: (0, 0),
    },
    Step {
        call: Call::Reads("a", b"new"),
        faults: (0, 0),
    },
    Step {
        call: Call::Reads("b", b"kept"),
        faults: (0, 0),
    },
    Step {
        call: Call::Reads("c", b"added"),
        faults: (0, 0),
    },
    Step {
        call: Call::ReadsPart("c", 1, 3, b"dde"),
        faults: (0, 0),
    },
    Step {
        call: Call::ReadsPart("c", 3, 9, b"ed"),
        faults: (0, 0),
    },
    Step {
        call: Call::ReadsPart("c", 5, 1, b""),
        faults: (0, 0),
    },
];

#[test]
fn files_in_memory_have_what_was_written(rt: HostRuntime) {
    assert!(rt; come_in_memory(rt.alloc(), &[], &WRITTEN) == Ok(true));
}

/// The calls 1, 2 and 4 are told to fail. A name that is not there is no counted fault, told to fail or not.
static FAILING: [Step<'static>; 8] = [
    Step {
        call: Call::Reads("a", b"old"),
        faults: (0, 0),
    },
    Step {
        call: Call::FailsToRead("a"),
        faults: (1, 0),
    },
    Step {
        call: Call::FailsToRead("z"),
        faults: (1, 0),
    },
    Step {
        call: Call::FailsToRead("z"),
        faults: (1, 0),
    },
    Step {
        call: Call::FailsToWrite("a", b"new"),
        faults: (1, 1),
    },
    Step {
        call: Call::Reads("a", b"old"),
        faults: (1, 1),
    },
    Step {
        call: Call::Writes("a", b"new"),
        faults: (1, 1),
    },
    Step {
        call: Call::Reads("a", b"new"),
        faults: (1, 1),
    },
];

#[test]
fn files_in_memory_fail_at_the_calls_that_they_were_told(rt: HostRuntime) {
    assert!(rt; come_in_memory(rt.alloc(), &[1, 2, 4], &FAILING) == Ok(true));
}

/// Whether calls of faltering files come to what they have to.
fn come_faltering(alloc: Global, breaks: bool, steps: &[Step<'_>]) -> bool {
    let mut files = HostFiles::new(Faltering { breaks });
    come(alloc, &mut files, steps)
}

#[test]
fn files_are_read_past_interruptions(rt: HostRuntime) {
    let whole = [Step {
        call: Call::Reads("any", b"abc"),
        faults: (0, 0),
    }];
    let broken = [Step {
        call: Call::FailsToRead("any"),
        faults: (1, 0),
    }];
    assert!(rt; come_faltering(rt.alloc(), false, &whole));
    assert!(rt; come_faltering(rt.alloc(), true, &broken));
}

/// A file of the system, which is made and removed.
const NAME: &str = "read_back.tmp";

/// Whether 10,000 bytes that are written to a file are read back while it is there.
fn are_read_back<R: rt::Files>(alloc: Global, rt: &R, bytes: &[u8]) -> bool {
    let there = [
        Step {
            call: Call::Writes(NAME, bytes),
            faults: (0, 0),
        },
        Step {
            call: Call::Reads(NAME, bytes),
            faults: (0, 0),
        },
        Step {
            call: Call::Reads(NAME, bytes),
            faults: (0, 0),
        },
        Step {
            call: Call::ReadsPart(NAME, 9_997, 2, &[7, 7]),
            faults: (0, 0),
        },
        Step {
            call: Call::ReadsPart(NAME, 10_000, 2, &[]),
            faults: (0, 0),
        },
    ];
    let gone = [
        Step {
            call: Call::FailsToRead(NAME),
            faults: (1, 0),
        },
        Step {
            call: Call::FailsToWrite("", bytes),
            faults: (1, 1),
        },
        Step {
            call: Call::FailsToReadPart(NAME),
            faults: (2, 1),
        },
    ];
    come(alloc, &mut HostFiles::new(rt), &there)
        && fs::remove_file(rt, NAME).is_ok()
        && come(alloc, &mut HostFiles::new(rt), &gone)
}

/// The same of more bytes than one read takes.
fn many_are_read_back<R: rt::Files>(alloc: Global, rt: &R) -> Result<bool, AllocError> {
    let bytes = vec![in alloc; 7; 10_000]?;
    Ok(are_read_back(alloc, rt, bytes.as_slice()))
}

#[test]
fn files_of_the_system_are_read_back(rt: HostRuntime) {
    assert!(rt; many_are_read_back(rt.alloc(), &rt) == Ok(true));
}

/// A put, and what has to come of it.
#[derive(Clone, Copy)]
enum Put<'a> {
    /// These bytes are taken.
    Taken(&'a [u8]),
    /// They are not, or only some of them are.
    Refused(&'a [u8]),
}

/// A put, and how many have failed then.
#[derive(Clone, Copy)]
struct Piece<'a> {
    put: Put<'a>,
    faults: u64,
}

/// Whether a put comes to what it has to.
fn is_put<S: Sink>(sink: &mut S, put: Put<'_>) -> bool {
    match put {
        Put::Taken(bytes) => sink.put(bytes) == Ok(()),
        Put::Refused(bytes) => sink.put(bytes) == Err(SinkFailed),
    }
}

/// Whether puts come to what they have to, in their order.
fn are_put<S: Sink>(sink: &mut S, pieces: &[Piece<'_>]) -> bool {
    for piece in pieces {
        if !is_put(sink, piece.put) || sink.faults() != piece.faults {
            return false;
        }
    }
    true
}

/// The put 1 is told to fail, and the room is for 5 bytes.
static FITTING: [Piece<'static>; 4] = [
    Piece {
        put: Put::Taken(b"abc"),
        faults: 0,
    },
    Piece {
        put: Put::Refused(b"x"),
        faults: 1,
    },
    Piece {
        put: Put::Refused(b"defg"),
        faults: 2,
    },
    Piece {
        put: Put::Taken(b""),
        faults: 2,
    },
];

/// Whether a sink in memory takes what fits.
fn takes_what_fits(alloc: Global) -> Result<bool, AllocError> {
    let mut sink = MemSink::new(alloc, 5, vec![in alloc; 1]?)?;
    Ok(are_put(&mut sink, &FITTING) && sink.as_slice() == b"abcde".as_slice())
}

#[test]
fn a_sink_in_memory_takes_what_fits(rt: HostRuntime) {
    assert!(rt; takes_what_fits(rt.alloc()) == Ok(true));
}

/// The writer is full behind 4 bytes.
static NARROWED: [Piece<'static>; 3] = [
    Piece {
        put: Put::Taken(b"ab"),
        faults: 0,
    },
    Piece {
        put: Put::Refused(b"cdef"),
        faults: 1,
    },
    Piece {
        put: Put::Taken(b""),
        faults: 1,
    },
];

#[test]
fn a_sink_fails_where_the_writer_takes_no_more(rt: HostRuntime) {
    let mut writer = Narrow::new();
    assert!(rt; are_put(&mut HostSink::new(&mut writer), &NARROWED));
    assert!(rt; writer.bytes == *b"abcd");
}
