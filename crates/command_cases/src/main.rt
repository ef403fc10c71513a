//! Plays scripts of commands, and prints the transcript: what each call of [`public_call::gnatcov`]
//! over real files put, and its status; and the same of calls over files in memory, of which some fail.
//! The scripts are files that the arguments name, or standard input; [`case_script::Line`] has their language.
#![tactic(auto)]

use case_script::{Asked, Call, Script, ScriptFault, Trial, put_answer, put_outcome};
use cov_io::{Files, HostFiles, HostSink, MemSink, Sink};
use public_call::gnatcov;
use std::alloc::Global;
use std::io::{BufRead, BufReader};
use std::{env, fs, io};

/// How many bytes of output a call may put.
const ROOM: usize = 65536;

/// Calls gnatcov, and puts what it put and its status.
fn answer<F: Files, S: Sink>(
    alloc: Global,
    call: &Call,
    files: &mut F,
    out: &mut S,
) -> Result<(), ScriptFault> {
    let mut output = MemSink::new(alloc, ROOM, Vec::new(alloc))?;
    let status = gnatcov(alloc, call.words.as_slice(), files, &mut output);
    put_answer(
        alloc,
        output.as_slice(),
        status.number(),
        call.are_details_left_out,
        out,
    )
}

/// Calls gnatcov over files in memory, and puts what it put, its status, and what became of the files.
fn answer_in_memory<S: Sink>(alloc: Global, trial: &Trial, out: &mut S) -> Result<(), ScriptFault> {
    let mut files = trial.files(alloc)?;
    let mut output = trial.sink(alloc)?;
    let status = gnatcov(alloc, trial.words.as_slice(), &mut files, &mut output);
    put_outcome(
        alloc,
        trial,
        &files,
        output.as_slice(),
        status.number(),
        out,
    )
}

/// Plays a line of a script, and makes the call that it asks for.
fn play<F: Files, S: Sink>(
    alloc: Global,
    line: &str,
    script: &mut Script,
    files: &mut F,
    out: &mut S,
) -> Result<(), ScriptFault> {
    match &script.play(line, files, out)? {
        Some(Asked::Call(call)) => answer(alloc, call, files, out),
        Some(Asked::Trial(trial)) => answer_in_memory(alloc, trial, out),
        None => Ok(()),
    }
}

/// Plays the scripts that are named, or where none is named that of standard input. They share one folder, as
/// if they were one. A line that is none of their language ends them.
fn main(rt: HostRuntime) -> Result<(), ScriptFault> {
    let alloc = rt.alloc();
    let mut files = HostFiles::new(&rt);
    let mut out = HostSink::new(io::writer(&rt));
    let mut script = Script::new(alloc);
    let names = scripts(&rt)?;
    if names.is_empty() {
        let reader = BufReader::new(alloc, rt.reader()).map_err(|_| ScriptFault::Script)?;
        for line in reader.lines(alloc) {
            let line = line.map_err(|_| ScriptFault::Script)?;
            play(alloc, line.as_str(), &mut script, &mut files, &mut out)?;
        }
    }
    for name in names.iter() {
        let file = fs::open(&rt, name.as_str()).map_err(|_| ScriptFault::Script)?;
        let reader = BufReader::new(alloc, file).map_err(|_| ScriptFault::Script)?;
        for line in reader.lines(alloc) {
            let line = line.map_err(|_| ScriptFault::Script)?;
            play(alloc, line.as_str(), &mut script, &mut files, &mut out)?;
        }
    }
    Ok(())
}

/// The names of scripts: the arguments behind the program's own name.
fn scripts(rt: &HostRuntime) -> Result<Vec<String>, ScriptFault> {
    let words = env::args(rt).map_err(|_| ScriptFault::Script)?;
    words
        .skip(1)
        .collect(rt.alloc())
        .map_err(|_| ScriptFault::Script)
}
