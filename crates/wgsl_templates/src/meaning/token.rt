//! Tokens of texts in which template lists are told.

use wgsl_lex::{Span, Token};

/// A token of a text in which template lists are told (WGSL, "Template Lists").
#[derive(Debug, Drop, PartialEq)]
pub enum TemplateToken {
    /// A token as it stands in any text; `<` and `>` are operators then.
    Plain(Token),
    /// `<` that opens a template list.
    TemplateArgsStart,
    /// `>` that ends one.
    TemplateArgsEnd,
}

/// Such a token and its place in the text.
#[derive(Debug, Drop, PartialEq)]
pub struct SpannedTemplateToken {
    pub token: TemplateToken,
    pub span: Span,
}

/// What is open at a place.
#[derive(Clone, Copy)]
pub enum Bracket {
    /// A template list.
    TemplateList,
    /// `(` or `[`.
    Plain,
}
