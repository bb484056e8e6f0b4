//! The tokens of a text as an iterator.

ghost use Rattle.std.specs.Prelude.{◌≡◌, ◌<◌, ◌≤◌, ◌+◌, IfOk, MatchOption, length, take};
ghost use Rattle.wgsl_templates.specs.Lexing.{Lexed, ends_at_fault, left};
ghost use Rattle.wgsl_templates.specs.Lexing as spec;

use crate::meaning::{SpannedTemplateToken, TemplateToken};
use crate::reading::lexer::lex_counted;
use std::alloc::{AllocError, Global};
use std::collections::VecDeque;
use wgsl_token::Token;

/// The tokens of a text, one after another, each with its place in bytes. They end behind the last token, or behind the first
/// one that is an invalid token.
#[derive(Debug, Drop)]
pub struct Lexer {
    tokens: VecDeque<SpannedTemplateToken>,
    /// How many entries the table of the text's template lists has.
    table_entries: usize,
}

impl Lexer {
    /// The tokens of a text. Only memory can fail.
    pub fn new(alloc: Global, text: &str) -> Result<Lexer, AllocError>
        ensures tokens { IfOk result (λ lexer. Lexed text.now (left lexer)) }
        ensures entries { IfOk result (λ lexer. spec.entries lexer ≤ length text.now) }
    {
        let (lexed, table_entries) = lex_counted(alloc, text)?;
        let mut tokens = lexed.into_vec();
        if let Some(at) = first_fault(tokens.as_slice()) {
            tokens.truncate(at + 1);
        }
        Ok(Lexer {
            tokens: VecDeque::from(tokens),
            table_entries,
        })
    }

    /// How many entries the table has by which the template lists of the text were told: at most one for each byte of the text.
    pub fn table_entries(&self) -> usize
        ensures { result ≡ spec.entries self.now }
    {
        self.table_entries
    }
}

/// Where the first invalid token stands.
fn first_fault(tokens: &[SpannedTemplateToken]) -> Option<usize>
    ensures { MatchOption result (ends_at_fault tokens.now ≡ tokens.now) (λ at. (at < length tokens.now) × (ends_at_fault tokens.now ≡ take (at + 1) tokens.now)) }
{
    for (at, token) in tokens.iter().enumerate() {
        if is_fault(token) {
            return Some(at);
        }
    }
    None
}

/// Whether a token is invalid.
fn is_fault(token: &SpannedTemplateToken) -> bool
    ensures { result ≡ spec.is_fault token.now }
{
    matches!(token.token, TemplateToken::Plain(Token::Invalid))
}

impl Iterator for Lexer {
    ghost use Rattle.std.specs.Iterator.{YieldsFirst, item_count};

    type Item = SpannedTemplateToken;

    ghost next_gives = { YieldsFirst left };

    ghost remaining = { item_count left };

    fn next(&mut self) -> Option<SpannedTemplateToken> {
        self.tokens.pop_front()
    }
}
