//! Errors of the parser with the text that they are about.

ghost use Rattle.std.specs.Prelude.{◌≡◌, IfOk};
ghost use Rattle.wgsl_parse.specs.Told as told;

use crate::snippet::Snippet;
use std::alloc::{AllocError, Global};
use std::fmt;
use wgsl_base::Text;
use wgsl_parser::{Error, ErrorKind};
use wgsl_path::Span;

/// An error, and the text that it is about.
#[derive(Debug, Drop)]
pub struct ErrorWithSource {
    pub error: Error,
    pub source: Text,
}

impl ErrorWithSource {
    /// An error with a copy of the text that it is about.
    pub fn new(alloc: Global, error: Error, source: &str) -> Result<ErrorWithSource, AllocError>
        ensures { IfOk result (λ x. x ≡ told.with_source error source.now) }
    {
        Ok(ErrorWithSource {
            error,
            source: Text::from_str(alloc, source)?,
        })
    }

    pub fn kind(&self) -> ErrorKind
        ensures { result ≡ self.now.error.kind }
    {
        self.error.kind
    }

    pub fn span(&self) -> Span
        ensures { result ≡ self.now.error.span }
    {
        self.error.span
    }

    pub fn source(&self) -> &str
        ensures { result.now ≡ self.now.source }
    {
        self.source.as_str()
    }
}

/// The error's message, and below it the place in the text: its line and column, the line, and marks below the part that the error is about.
impl fmt::Display for ErrorWithSource {
    ghost use Rattle.std.specs.Prelude.{Some};
    ghost use Rattle.wgsl_parse.specs.Told.{told_text};

    ghost output = { λ x. Some (told_text x.error x.source) };

    fn fmt<W: fmt::Write>(&self, f: &mut fmt::Formatter<W>) -> fmt::Result {
        let snippet = Snippet {
            text: self.source.as_str(),
            span: self.error.span,
        };
        self.error.fmt(f)?;
        f.write_str("\n")?;
        snippet.fmt(f)
    }
}

impl std::error::Error for ErrorWithSource {}

/// What can be told with the text that it is about.
pub trait WithSource: Sized {
    ghost use Rattle.std.specs.Prelude.{◌≡◌, IfOk};
    ghost use Rattle.wgsl_token.specs.declared.fault.error.Error.{Error};
    ghost use Rattle.wgsl_parse.specs.Told as told;

    /// The error that it is.
    ghost error: { Self → Error };

    /// The error with a copy of the text.
    fn with_source(self, alloc: Global, source: &str) -> Result<ErrorWithSource, AllocError>
        ensures { IfOk result (λ x. x ≡ told.with_source (error self) source.now) };
}

impl WithSource for Error {
    ghost error = { λ e. e };

    fn with_source(self, alloc: Global, source: &str) -> Result<ErrorWithSource, AllocError> {
        ErrorWithSource::new(alloc, self, source)
    }
}
