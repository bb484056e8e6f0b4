//! The fields of an error.

use crate::diagnostics::ErrorLine;
use crate::fields::kind::Kind;
use std::alloc::{AllocError, Global};
use std::fmt::Display;
use std::io;
use std::io::Write;
use weslc_bundle::{ErrorContext, Field};
use wgsl_base::Text;
use wgsl_path::{ModulePath, Span};

/// The fields of an error, each written as in an error line. One that is missing is none.
#[derive(Drop)]
pub struct Told {
    pub kind: String,
    pub module: Option<String>,
    pub declaration: Option<String>,
    pub span: Option<Span>,
    pub subject: Option<String>,
}

impl Told {
    /// A kind alone.
    pub(crate) fn of_kind(alloc: Global, kind: Kind) -> Result<Told, AllocError> {
        Ok(Told {
            kind: kind.text(alloc)?,
            module: None,
            declaration: None,
            span: None,
            subject: None,
        })
    }

    /// A kind and a name.
    pub(crate) fn of_subject<T: Display>(
        alloc: Global,
        kind: Kind,
        subject: Option<&T>,
    ) -> Result<Told, AllocError> {
        let kind = kind.text(alloc)?;
        Ok(Told {
            kind,
            module: None,
            declaration: None,
            span: None,
            subject: written(alloc, subject)?,
        })
    }

    /// A kind and a place in a text that is no module's, or is the root's.
    pub(crate) fn of_span(alloc: Global, kind: Kind, span: Span) -> Result<Told, AllocError> {
        Ok(Told {
            kind: kind.text(alloc)?,
            module: None,
            declaration: None,
            span: Some(span),
            subject: None,
        })
    }

    /// A kind and what it is about.
    pub(crate) fn of_context(
        alloc: Global,
        kind: Kind,
        context: &ErrorContext,
        span: Option<Span>,
    ) -> Result<Told, AllocError> {
        let kind = kind.text(alloc)?;
        let module = written::<ModulePath>(alloc, context.module.as_ref())?;
        let declaration = written::<Text>(alloc, context.decl.as_ref())?;
        let subject = written::<Text>(alloc, context.name.as_ref())?;
        Ok(Told {
            kind,
            module,
            declaration,
            span,
            subject,
        })
    }

    /// Writes the fields as an error line.
    pub fn write_line<E: Write>(&self, errors: &mut E) -> io::Result<()> {
        let line = self.line();
        let (kind, module) = (line.kind, line.module.unwrap_or("-"));
        let declaration = line.declaration.unwrap_or("-");
        let subject = line.subject.unwrap_or("-");
        match line.span {
            Some(span) => {
                let (start, end) = (span.start, span.end);
                writeln!(
                    errors,
                    "error: {kind} {module} {declaration} {start}..{end} {subject}"
                )
            }
            None => writeln!(errors, "error: {kind} {module} {declaration} - {subject}"),
        }
    }

    /// The fields as they are shown.
    pub fn line(&self) -> ErrorLine<'_> {
        ErrorLine {
            kind: self.kind.as_str(),
            module: text_of(&self.module),
            declaration: text_of(&self.declaration),
            span: self.span,
            subject: text_of(&self.subject),
        }
    }
}

fn text_of(field: &Option<String>) -> Option<&str> {
    match field {
        Some(text) => Some(text.as_str()),
        None => None,
    }
}

/// A field as an error line has it.
pub fn written<T: Display>(alloc: Global, value: Option<&T>) -> Result<Option<String>, AllocError> {
    match value {
        Some(value) => Ok(Some(Field(Some(value)).to_string(alloc)?)),
        None => Ok(None),
    }
}
