//! The fault of a text.

ghost use Rattle.std.specs.Prelude.{◌≡◌};
ghost use Rattle.wgsl_token.specs.Errors as errors;

use std::alloc::AllocError;
use std::fmt;
use wgsl_path::Span;

/// What kind of fault a text has.
#[derive(Clone, Copy, Debug, PartialEq, Eq)]
pub enum ErrorKind {
    /// What stands there is no token.
    InvalidToken,
    /// A reserved word where the grammar doesn't name it.
    ReservedWord,
    /// The first token with which no text goes on.
    UnexpectedToken,
    /// The text ends where some text goes on.
    UnexpectedEof,
    /// A token behind the end of a text. No text has this fault: a token too many is an `UnexpectedToken`.
    ExtraToken,
    /// No severity of a diagnostic.
    DiagnosticSeverity,
    /// The arguments of an attribute are not those that it takes.
    Attribute,
    /// The template of `var` is no address space, with an access mode or without.
    VarTemplate,
    /// A node is nested deeper than the parser takes. Its place is that of the node that is one level too deep, the first of those in the
    /// order in which they end. This says nothing of what else the text has.
    TooDeep,
    /// Parts of the text fit no production, though the parser's tables say so: the parser's own fault, of which no text is known. This says
    /// nothing of the text.
    Misfit,
    /// The parser took more steps than the text has tokens to need: the parser's own fault, of which no text is known. This says nothing of
    /// the text.
    TooManySteps,
    /// Memory was refused. This says nothing of the text.
    OutOfMemory,
}

/// Why a parser gives up. This says nothing of the text, but for the place of what is nested too deep.
#[derive(Clone, Copy, Debug, PartialEq, Eq)]
pub enum Refusal {
    /// Memory was refused.
    OutOfMemory,
    /// The node at this place, in bytes, would be nested deeper than the parser takes.
    TooDeep(Span),
    /// Parts fit no production, though the parser's tables say so.
    Misfit,
    /// The parser took more steps than the tokens need.
    TooManySteps,
}

impl From<AllocError> for Refusal {
    ghost use Rattle.wgsl_token.specs.declared.fault.error.Refusal.TheVariants.{OutOfMemory};

    ghost from_gives = { λ _ refusal. refusal ≡ OutOfMemory };

    fn from(_error: AllocError) -> Refusal {
        Refusal::OutOfMemory
    }
}

impl fmt::Display for Refusal {
    ghost use Rattle.std.specs.Prelude.{Some};
    ghost use Rattle.wgsl_token.specs.Errors.{message, refused};

    ghost output = { λ refusal. Some (message (refused refusal).kind) };

    fn fmt<W: fmt::Write>(&self, f: &mut fmt::Formatter<W>) -> fmt::Result {
        f.write_str(Error::refused(*self).kind.message())
    }
}

impl std::error::Error for Refusal {}

impl ErrorKind {
    /// What is told of a fault of this kind.
    pub fn message(self) -> &'static str
        ensures { result.now ≡ errors.message self }
    {
        match self {
            ErrorKind::InvalidToken => "invalid token",
            ErrorKind::ReservedWord => "reserved word",
            ErrorKind::UnexpectedToken => "unexpected token",
            ErrorKind::UnexpectedEof => "unexpected end of the text",
            ErrorKind::ExtraToken => "extra token",
            ErrorKind::DiagnosticSeverity => "invalid severity of a diagnostic",
            ErrorKind::Attribute => "invalid arguments of an attribute",
            ErrorKind::VarTemplate => "invalid template of `var`",
            ErrorKind::TooDeep => "nested too deep",
            ErrorKind::Misfit => "parts that fit no production",
            ErrorKind::TooManySteps => "too many steps of the parser",
            ErrorKind::OutOfMemory => "out of memory",
        }
    }
}

impl fmt::Display for ErrorKind {
    ghost use Rattle.std.specs.Prelude.{Some};
    ghost use Rattle.wgsl_token.specs.Errors.{message};

    ghost output = { λ kind. Some (message kind) };

    fn fmt<W: fmt::Write>(&self, f: &mut fmt::Formatter<W>) -> fmt::Result {
        f.write_str(self.message())
    }
}

impl std::error::Error for ErrorKind {}

/// The fault of a text, and its place there in bytes. An end that comes too early has an empty place at the end; a failed check has the
/// place of the token that ends what was checked.
#[derive(Clone, Copy, Debug, PartialEq, Eq)]
pub struct Error {
    pub kind: ErrorKind,
    pub span: Span,
}

impl fmt::Display for Error {
    ghost use Rattle.std.specs.Prelude.{Some};
    ghost use Rattle.wgsl_token.specs.Errors.{error_text};

    ghost output = { λ error. Some (error_text error) };

    fn fmt<W: fmt::Write>(&self, f: &mut fmt::Formatter<W>) -> fmt::Result {
        let Span { start, end } = self.span;
        write!(f, "{} at {start}..{end}", self.kind)
    }
}

impl std::error::Error for Error {}

impl Error {
    /// Memory was refused, which has no place in the text.
    pub fn out_of_memory() -> Error
        ensures is { result ≡ errors.out_of_memory }
        ensures refusal { errors.IsRefusal result }
    {
        Error {
            kind: ErrorKind::OutOfMemory,
            span: Span { start: 0, end: 0 },
        }
    }

    /// Why a parser gave up. What is nested too deep has its place; anything else has none, and stands at byte 0.
    pub fn refused(refusal: Refusal) -> Error
        ensures is { result ≡ errors.refused refusal }
        ensures refusal { errors.IsRefusal result }
    {
        let nowhere = Span { start: 0, end: 0 };
        match refusal {
            Refusal::OutOfMemory => Error::out_of_memory(),
            Refusal::TooDeep(span) => Error {
                kind: ErrorKind::TooDeep,
                span,
            },
            Refusal::Misfit => Error {
                kind: ErrorKind::Misfit,
                span: nowhere,
            },
            Refusal::TooManySteps => Error {
                kind: ErrorKind::TooManySteps,
                span: nowhere,
            },
        }
    }

    /// Why the parser gave up, where it did: memory was refused, the text is nested too deep, or the parser itself is at fault. Any other
    /// error is a fault of the text.
    pub fn refusal(self) -> Option<Refusal>
        ensures { errors.refusal_of self ≡ result }
    {
        match self.kind {
            ErrorKind::TooDeep => Some(Refusal::TooDeep(self.span)),
            ErrorKind::Misfit => Some(Refusal::Misfit),
            ErrorKind::TooManySteps => Some(Refusal::TooManySteps),
            ErrorKind::OutOfMemory => Some(Refusal::OutOfMemory),
            ErrorKind::InvalidToken
            | ErrorKind::ReservedWord
            | ErrorKind::UnexpectedToken
            | ErrorKind::UnexpectedEof
            | ErrorKind::ExtraToken
            | ErrorKind::DiagnosticSeverity
            | ErrorKind::Attribute
            | ErrorKind::VarTemplate => None,
        }
    }
}
