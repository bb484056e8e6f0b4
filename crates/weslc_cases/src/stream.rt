//! Readers and writers over memory, which move a few bytes at a time and can fail.

use std::alloc::Global;
use std::io;
use std::io::{Read, Write};

/// How many bytes are moved at once.
const SHARE: usize = 64;

/// Counts a call, and fails where none is left that goes well.
fn count_call(calls_left: &mut Option<u64>) -> io::Result<()> {
    match *calls_left {
        None => Ok(()),
        Some(0) => Err(io::Error::from(io::ErrorKind::BrokenPipe)),
        Some(count) => {
            *calls_left = Some(count - 1);
            Ok(())
        }
    }
}

/// Gives bytes of memory.
#[derive(Drop)]
pub struct Source<'a> {
    bytes: &'a [u8],
    calls_left: Option<u64>,
}

impl<'a> Source<'a> {
    /// A reader of these bytes, at which the call of this number fails.
    pub fn new(bytes: &'a [u8], failing: Option<u64>) -> Source<'a> {
        Source {
            bytes,
            calls_left: failing,
        }
    }
}

impl Read for Source<'_> {
    fn read(&mut self, buf: &mut [u8]) -> io::Result<usize> {
        count_call(&mut self.calls_left)?;
        let count = self.bytes.len().min(buf.len()).min(SHARE);
        let (now, later) = self.bytes.split_at(count);
        buf[..count].copy_from_slice(now);
        self.bytes = later;
        Ok(count)
    }
}

/// Keeps what is written.
#[derive(Drop)]
pub struct Sink {
    bytes: Vec<u8>,
    calls_left: Option<u64>,
}

impl Sink {
    /// An empty writer, at which the call of this number fails.
    pub fn new(alloc: Global, failing: Option<u64>) -> Sink {
        Sink {
            bytes: Vec::new(alloc),
            calls_left: failing,
        }
    }

    /// What was written.
    pub fn as_str(&self) -> &str {
        str::from_utf8(self.bytes.as_slice()).unwrap_or("no UTF-8")
    }
}

impl Write for Sink {
    fn write(&mut self, buf: &[u8]) -> io::Result<usize> {
        count_call(&mut self.calls_left)?;
        let count = buf.len().min(SHARE);
        self.bytes.extend_from_slice(&buf[..count])?;
        Ok(count)
    }

    fn flush(&mut self) -> io::Result<()> {
        count_call(&mut self.calls_left)
    }
}
