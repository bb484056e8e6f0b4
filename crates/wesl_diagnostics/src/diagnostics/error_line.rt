//! What an error says.

use wgsl_path::Span;

/// What an error says, in the words of the line that `weslc` writes. A field that is missing is none.
#[derive(Clone, Copy)]
pub struct ErrorLine<'a> {
    pub kind: &'a str,
    pub module: Option<&'a str>,
    pub declaration: Option<&'a str>,
    pub span: Option<Span>,
    pub subject: Option<&'a str>,
}
