//! A runtime and a writer that falter. Contracts see no read and no write of the system, so only runs
//! show what is made of their errors.

use std::alloc::Allocator;
use std::fs::{Metadata, OpenFile, OpenOptions};
use std::io::{self, Empty, ErrorKind, Read, Seek, SeekFrom, Write};
use std::rt;

/// What a call answers that nobody makes here.
fn unsupported<T>() -> io::Result<T> {
    Err(io::Error::from(ErrorKind::Unsupported))
}

/// What the files of the runtime hold.
const HELD: [u8; 3] = *b"abc";

/// A runtime whose files are read a byte at a time, with an interruption before each.
#[derive(Drop)]
pub(super) struct Faltering {
    /// Whether a read behind the last byte is an error. Else the file ends there.
    pub(super) breaks: bool,
}

/// A file that is being read.
#[derive(Drop)]
pub(super) struct FalteringFile {
    at: usize,
    interrupted: bool,
    breaks: bool,
}

impl Read for FalteringFile {
    fn read(&mut self, buf: &mut [u8]) -> io::Result<usize> {
        self.interrupted = !self.interrupted;
        if self.interrupted {
            return Err(io::Error::from(ErrorKind::Interrupted));
        }
        match (HELD.get(self.at), buf.first_mut()) {
            (Some(byte), Some(first)) => {
                *first = *byte;
                self.at = self.at.saturating_add(1);
                Ok(1)
            }
            (None, _) if self.breaks => Err(io::Error::from(ErrorKind::BrokenPipe)),
            _ => Ok(0),
        }
    }
}

impl Write for FalteringFile {
    fn write(&mut self, _buf: &[u8]) -> io::Result<usize> {
        Err(io::Error::from(ErrorKind::Unsupported))
    }

    fn flush(&mut self) -> io::Result<()> {
        unsupported()
    }
}

impl Seek for FalteringFile {
    fn seek(&mut self, _to: SeekFrom) -> io::Result<u64> {
        unsupported()
    }
}

impl OpenFile for FalteringFile {
    fn metadata(&self) -> io::Result<Metadata> {
        unsupported()
    }

    fn set_len(&self, _size: u64) -> io::Result<()> {
        unsupported()
    }

    fn sync_all(&self) -> io::Result<()> {
        unsupported()
    }

    fn sync_data(&self) -> io::Result<()> {
        unsupported()
    }
}

impl rt::Files for Faltering {
    type File = FalteringFile;

    type Dir = Empty;

    fn open_file(&self, _how: &OpenOptions, _path: &str) -> io::Result<FalteringFile> {
        Ok(FalteringFile {
            at: 0,
            interrupted: false,
            breaks: self.breaks,
        })
    }

    fn open_dir(&self, _path: &str) -> io::Result<Empty> {
        unsupported()
    }

    fn metadata(&self, _path: &str) -> io::Result<Metadata> {
        unsupported()
    }

    fn symlink_metadata(&self, _path: &str) -> io::Result<Metadata> {
        unsupported()
    }

    fn copy(&self, _from: &str, _to: &str) -> io::Result<u64> {
        unsupported()
    }

    fn rename(&self, _from: &str, _to: &str) -> io::Result<()> {
        unsupported()
    }

    fn remove_file(&self, _path: &str) -> io::Result<()> {
        unsupported()
    }

    fn create_dir(&self, _path: &str) -> io::Result<()> {
        unsupported()
    }

    fn remove_dir(&self, _path: &str) -> io::Result<()> {
        unsupported()
    }

    fn remove_dir_all<B: Allocator>(&self, _alloc: B, _path: &str) -> io::Result<()> {
        unsupported()
    }
}

/// A writer that takes a byte at a time until it is full, with an interruption before each.
#[derive(Drop)]
pub(super) struct Narrow {
    pub(super) bytes: [u8; 4],
    len: usize,
    interrupted: bool,
}

impl Narrow {
    pub(super) fn new() -> Self {
        Narrow {
            bytes: [0; 4],
            len: 0,
            interrupted: false,
        }
    }
}

impl Write for Narrow {
    fn write(&mut self, buf: &[u8]) -> io::Result<usize> {
        self.interrupted = !self.interrupted;
        if self.interrupted {
            return Err(io::Error::from(ErrorKind::Interrupted));
        }
        match buf {
            [first, ..] if self.len < self.bytes.len() => {
                self.bytes[self.len] = *first;
                self.len += 1;
                Ok(1)
            }
            _ => Ok(0),
        }
    }

    fn flush(&mut self) -> io::Result<()> {
        Ok(())
    }
}
