//! gnatcov: structural coverage of programs from the traces of their runs.
#![tactic(auto)]

use cov_io::{HostFiles, HostSink};
use public_call::gnatcov;
use std::process::ExitCode;
use std::{env, io};

/// Calls [`gnatcov`] with the command words over real files and standard output, and ends with the
/// status' number. Arguments that can't be had are no command.
fn main(rt: HostRuntime) -> ExitCode {
    let words = arguments(&rt).unwrap_or(Vec::new(rt.alloc()));
    let mut files = HostFiles::new(&rt);
    let mut out = HostSink::new(io::writer(&rt));
    let status = gnatcov(rt.alloc(), words.as_slice(), &mut files, &mut out);
    ExitCode::from(status.number())
}

/// The command words, the program's name first.
fn arguments(rt: &HostRuntime) -> io::Result<Vec<String>> {
    Ok(env::args(rt)?.collect(rt.alloc())?)
}
