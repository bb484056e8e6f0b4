//! Reading a line of bounded length.

ghost use Rattle.std.specs.Prelude.{◌<◌, IfSome, length};

use std::alloc::{AllocError, Global};
use std::io;
use std::io::BufRead;

/// How many bytes a line may have.
const MAX_LINE_LEN: usize = 16_777_216;

/// What a read of a line comes to.
#[derive(Drop)]
pub enum Line {
    /// The bytes of a line, without its break.
    Bytes(Vec<u8>),
    /// It has more bytes than a line may have, and was passed over.
    TooLong,
    /// Memory was refused, and it was passed over.
    OutOfMemory,
    /// The input has ended.
    End,
}

/// A line as far as it was read.
#[derive(Drop)]
struct Partial {
    bytes: Vec<u8>,
    has_begun: bool,
    is_too_long: bool,
    is_refused: bool,
}

impl Partial {
    fn new(alloc: Global) -> Partial {
        Partial {
            bytes: Vec::new(alloc),
            has_begun: false,
            is_too_long: false,
            is_refused: false,
        }
    }

    /// Adds bytes, unless one of those before could not be kept.
    fn add(&mut self, bytes: &[u8]) {
        self.has_begun = true;
        if self.is_too_long || self.is_refused {
            return;
        }
        if bytes.len() > MAX_LINE_LEN.saturating_sub(self.bytes.len()) {
            self.is_too_long = true;
        } else if let Err(AllocError) = self.bytes.extend_from_slice(bytes) {
            self.is_refused = true;
        }
    }

    fn finish(self) -> Line {
        let Partial {
            bytes,
            has_begun,
            is_too_long,
            is_refused,
        } = self;
        if is_too_long {
            Line::TooLong
        } else if is_refused {
            Line::OutOfMemory
        } else if has_begun {
            Line::Bytes(bytes)
        } else {
            Line::End
        }
    }
}

/// Reads one line. What is behind the last line break is a line, unless it is empty.
pub fn read_line<R: BufRead>(alloc: Global, reader: &mut R) -> io::Result<Line> {
    let mut partial = Partial::new(alloc);
    for _turn in 0..u64::MAX {
        if read_more(reader, &mut partial)? {
            break;
        }
    }
    Ok(partial.finish())
}

/// Takes what the reader has of the line. Whether that was the last of it.
fn read_more<R: BufRead>(reader: &mut R, partial: &mut Partial) -> io::Result<bool> {
    let bytes = match reader.fill_buf() {
        Ok(bytes) => bytes,
        Err(error) if error.kind() == io::ErrorKind::Interrupted => return Ok(false),
        Err(error) => return Err(error),
    };
    if bytes.is_empty() {
        return Ok(true);
    }
    match break_in(bytes) {
        Some(place) => {
            partial.add(&bytes[..place]);
            reader.consume(place + 1);
            Ok(true)
        }
        None => {
            let count = bytes.len();
            partial.add(bytes);
            reader.consume(count);
            Ok(false)
        }
    }
}

/// Where the first line break is.
fn break_in(bytes: &[u8]) -> Option<usize>
    ensures { IfSome result (λ place. place < length bytes.now) }
{
    bytes.iter().position(|byte| *byte == b'\n')
}
