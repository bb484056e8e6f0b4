//! The fault of a text.

use thiserror::Error as Message;
use wgsl_path::Span;

/// What kind of fault a text has.
#[derive(Clone, Copy, Debug, PartialEq, Eq, Message)]
pub enum ErrorKind {
    /// What stands there is no token.
    #[error("invalid token")]
    InvalidToken,
    /// A reserved word where the grammar doesn't name it.
    #[error("reserved word")]
    ReservedWord,
    /// The first token with which no unit goes on.
    #[error("unexpected token")]
    UnexpectedToken,
    /// The text ends where some unit goes on.
    #[error("unexpected end of the text")]
    UnexpectedEof,
    /// Memory was refused. This says nothing of the text.
    #[error("out of memory")]
    OutOfMemory,
}

/// The fault of a text, and its place there in bytes. An end that comes too early has an empty place at the end.
#[derive(Clone, Copy, Debug, PartialEq, Eq, Message)]
#[error("{kind} at {}..{}", .span.start, .span.end)]
pub struct Error {
    pub kind: ErrorKind,
    pub span: Span,
}
