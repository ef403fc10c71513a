//! Cases for the layers below the public call: reads lines of text, and prints what a layer answers to
//! each.
//!
//! A line is a command and its words. Some make a text or a file, piece by piece, under a name:
//!
//! | Line | Does |
//! |---|---|
//! | `blob NAME` | begins a blob, which the lines below it fill and ask about |
//! | `\| TEXT` | adds a line of text |
//! | `+ TEXT` | adds the text, without the line's end |
//! | `* COUNT TEXT` | adds the text so many times |
//! | `hex DIGITS` | adds bytes |
//! | `many COUNT DIGITS` | adds bytes so many times |
//! | `lines NAME FIRST LAST` | adds lines of another blob, counted from 1 |
//! | `part NAME FROM TO` | adds bytes of another blob, counted from 0, without that at TO |
//! | `digest` | adds the SHA-256 of what is there |
//!
//! The others ask, and are printed, each with what a layer answers below it; the modules say which
//! there are. A line that is out of form is printed behind a `?`. Lines that begin with `#` say what
//! follows.
#![tactic(auto)]

mod asking;
mod blobs;
mod consolidated;
mod decisions;
mod generics;
mod images;
mod instructions;
mod laws;
mod listed;
mod lists;
mod objects;
mod pieces;
mod reply;
mod runs;
mod sources;
mod words;

use blobs::Blobs;
use generated_images::Draft;
use reply::Reply;
use std::alloc::Global;
use std::io;
use std::io::{BufRead, BufReader, BufWriter, Write};

fn main(rt: HostRuntime) -> io::Result<()> {
    laws::call_laws();
    let alloc = rt.alloc();
    let mut out = BufWriter::new(alloc, io::writer(&rt))?;
    let lines = BufReader::new(alloc, rt.reader())?.lines(alloc);
    let mut blobs = Blobs::new(alloc);
    let mut draft = Draft::new(alloc);
    for line in lines {
        put_answer(alloc, &mut blobs, &mut draft, &mut out, line)?;
    }
    out.flush()
}

/// Puts what a line is answered.
fn put_answer<W: Write>(
    alloc: Global,
    blobs: &mut Blobs,
    draft: &mut Draft,
    out: &mut W,
    line: io::Result<String>,
) -> io::Result<()> {
    let line = line?;
    let mut reply = Reply::new(alloc);
    asking::answer(alloc, blobs, draft, &mut reply, line.as_str());
    reply.write(out, line.as_str())
}
