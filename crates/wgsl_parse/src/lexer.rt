//! The tokens of a text, with their template lists.

pub use crate::iterator::TokenIterator;
pub use crate::kinds::TokenKinds;
pub use wgsl_templates::reading::lexer::{lex, recognize_template_list};
pub use wgsl_templates::{Lexer, SpannedTemplateToken, TemplateToken};
pub use wgsl_token::{Fixed, Token};
