//! What a line is answered.

use cov_base::Failure;
use std::alloc::Global;
use std::fmt::Display;
use std::io;
use std::io::Write;

/// How far an answer came.
#[derive(Clone, Copy)]
enum State {
    /// All that was put is in the text.
    Whole,
    /// The line asks nothing, and the text says why.
    Refused,
    /// Memory was refused.
    OutOfMemory,
}

/// The text that a line is answered. Once the line or memory is refused, nothing more is put: so what puts
/// need not ask, and the state is looked at once, when the answer is written.
pub(crate) struct Reply {
    text: String,
    state: State,
}

// Written out: a derived drop is proved anew in each crate above.
impl Drop for Reply {
    fn drop(self) {
        let Reply { text: _, state: _ } = self;
    }
}

impl Reply {
    pub(crate) fn new(alloc: Global) -> Reply {
        Reply {
            text: String::new(alloc),
            state: State::Whole,
        }
    }

    /// Puts a text.
    pub(crate) fn put<D: Display + Drop>(&mut self, text: D) {
        if let State::Whole = self.state {
            let done = self.text.write(text);
            self.note(done);
        }
    }

    /// Puts bytes in hexadecimal digits, and ends the line.
    pub(crate) fn put_hex(&mut self, bytes: &[u8]) {
        for byte in bytes {
            self.put(format_args!("{byte:02x}"));
        }
        self.put("\n");
    }

    /// Refuses the line.
    pub(crate) fn refuse<D: Display + Drop>(&mut self, fault: D) {
        if let State::Whole = self.state {
            self.text.clear();
            self.put(fault);
            self.state = State::Refused;
        }
    }

    /// Notes that memory was refused.
    pub(crate) fn lack_memory(&mut self) {
        self.state = State::OutOfMemory;
    }

    /// Notes whether memory was refused.
    pub(crate) fn note<E: Drop>(&mut self, done: Result<(), E>) {
        if done.is_err() {
            self.lack_memory();
        }
    }

    /// Puts a fault as a line, or notes that memory was refused.
    pub(crate) fn put_failure<D: Display + Drop>(&mut self, failure: Failure<D>) {
        match failure {
            Failure::Fault(fault) => self.put(format_args!("{fault}\n")),
            Failure::WantOfMemory => self.lack_memory(),
        }
    }

    /// Refuses the line for a fault of the file that it names, or notes that memory was refused.
    pub(crate) fn refuse_file<D: Display + Drop>(&mut self, file: &str, failure: Failure<D>) {
        match failure {
            Failure::Fault(fault) => self.refuse(format_args!("{file}: {fault}")),
            Failure::WantOfMemory => self.lack_memory(),
        }
    }

    /// Writes the text, or the line behind a `?` and why it is not answered.
    pub(crate) fn write<W: Write>(&self, out: &mut W, line: &str) -> io::Result<()> {
        let text = self.text.as_str();
        match self.state {
            State::Whole => out.write_all(text.as_bytes()),
            State::Refused => writeln!(out, "? {line}: {text}"),
            State::OutOfMemory => writeln!(out, "? {line}: want of memory"),
        }
    }
}
