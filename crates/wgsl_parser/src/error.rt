//! The fault of a text, by why its tokens were not read.

ghost use Rattle.std.specs.Prelude.{◌≡◌};
ghost use Rattle.wgsl_parser.specs.Errors as errors;

use wgsl_lr_driver::{Check, Failure, Unread};
use wgsl_path::Span;
use wgsl_templates::{SpannedTemplateToken, TemplateToken};
use wgsl_token::fault::{Error, ErrorKind};
use wgsl_token::{Fixed, Token};

fn kind_of_check(check: Check) -> ErrorKind
    ensures { result ≡ errors.kind_of_check check }
{
    match check {
        Check::Attribute => ErrorKind::Attribute,
        Check::DiagnosticSeverity => ErrorKind::DiagnosticSeverity,
        Check::VarTemplate => ErrorKind::VarTemplate,
    }
}

/// The words of imports are reserved where the grammar doesn't name them.
fn kind_of_fixed(kind: Fixed) -> ErrorKind
    ensures { result ≡ errors.kind_of_fixed kind }
{
    match kind {
        Fixed::Import | Fixed::Package | Fixed::Super | Fixed::As => ErrorKind::ReservedWord,
        _ => ErrorKind::UnexpectedToken,
    }
}

fn kind_of_token(token: &TemplateToken) -> ErrorKind
    ensures { result ≡ errors.kind_of_token token.now }
{
    match token {
        TemplateToken::Plain(Token::Invalid) => ErrorKind::InvalidToken,
        TemplateToken::Plain(Token::Reserved(_)) => ErrorKind::ReservedWord,
        TemplateToken::Plain(Token::Fixed(kind)) => kind_of_fixed(*kind),
        _ => ErrorKind::UnexpectedToken,
    }
}

fn unexpected(length: usize, next: Option<SpannedTemplateToken>) -> Error
    ensures { result ≡ errors.unexpected length next }
{
    match next {
        Some(next) => Error {
            kind: kind_of_token(&next.token),
            span: next.span,
        },
        None => Error {
            kind: ErrorKind::UnexpectedEof,
            span: Span {
                start: length,
                end: length,
            },
        },
    }
}

fn failed(failure: Failure) -> Error
    ensures { result ≡ errors.failed failure }
{
    Error {
        kind: kind_of_check(failure.check),
        span: failure.span,
    }
}

/// Of a check and a text that end together the end of the text is told.
fn failed_at_end(length: usize, failure: Failure) -> Error
    ensures { result ≡ errors.failed_at_end length failure }
{
    if failure.span.end < length {
        failed(failure)
    } else {
        unexpected(length, None)
    }
}

/// The fault of a text of this length, by why its tokens were not read.
pub(crate) fn error_of(length: usize, unread: Unread) -> Error
    ensures { result ≡ errors.error_of length unread }
{
    match unread {
        Unread::Refused(refusal) => Error::refused(refusal),
        Unread::Failed(failure) => failed(failure),
        Unread::FailedAtEnd(failure) => failed_at_end(length, failure),
        Unread::Unexpected(next) => unexpected(length, next),
    }
}
