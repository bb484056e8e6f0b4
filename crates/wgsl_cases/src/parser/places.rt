//! What is told of an error with its text. In texts `\n`, `\r`, `\t` and `\\` stand for a line feed, a carriage return, a tab and a backslash.

use crate::parser::answers::cut;
use crate::parser::escapes;
use std::alloc::{AllocError, Global};
use std::fmt::{Display, Write};
use wgsl_parse::span::Span;
use wgsl_parse::{Error, ErrorKind, ErrorWithSource, WithSource, parse_str};

fn written<T: Display>(alloc: Global, value: &T) -> Result<String, AllocError> {
    let mut text = String::new(alloc);
    write!(text, "{value}")?;
    escapes::write(alloc, text.as_str())
}

fn number(text: &str) -> usize {
    text.parse().unwrap_or(0)
}

/// What is told of an unexpected token at this place of a text.
pub fn told(alloc: Global, arguments: &str) -> Result<String, AllocError> {
    let (start, arguments) = cut(arguments);
    let (end, text) = cut(arguments);
    let error = Error {
        kind: ErrorKind::UnexpectedToken,
        span: Span {
            start: number(start),
            end: number(end),
        },
    };
    let text = escapes::read(alloc, text)?;
    written(alloc, &ErrorWithSource::new(alloc, error, text.as_str())?)
}

/// What is told of the fault of a module.
pub fn with_source(alloc: Global, text: &str) -> Result<String, AllocError> {
    let text = escapes::read(alloc, text)?;
    match parse_str(alloc, text.as_str()) {
        Ok(_) => String::from_str(alloc, "none"),
        Err(error) => written(alloc, &error.with_source(alloc, text.as_str())?),
    }
}
