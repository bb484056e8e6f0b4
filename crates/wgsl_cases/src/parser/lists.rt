//! Calls on tokens and template lists: which `<` open a list.

use crate::parser::answers::cut;
use std::alloc::{AllocError, Global};
use std::fmt::{Display, Write};
use wgsl_parse::lexer::{self, Lexer, SpannedTemplateToken, TemplateToken, Token};
use wgsl_parse::parser;

/// The answer to a call.
pub fn answer(alloc: Global, call: &str, with: &str) -> Result<String, AllocError> {
    match call {
        "lex" => shown(alloc, with),
        "recognize" => told(alloc, lexer::recognize_template_list(alloc, with)?),
        "tokens" => behind_first(alloc, with),
        "repeat" => repeated(alloc, with),
        _ => String::from_str(alloc, "no such call"),
    }
}

fn told(alloc: Global, told: bool) -> Result<String, AllocError> {
    format!(in alloc; "{told}")
}

/// The tokens of a text: `‹` starts a list, and `›` ends one.
fn shown(alloc: Global, text: &str) -> Result<String, AllocError> {
    let tokens = lexer::lex(alloc, text)?;
    let mut all = String::new(alloc);
    for token in tokens.as_slice() {
        if !all.is_empty() {
            all.push(' ')?;
        }
        push_token(&mut all, &token.token)?;
    }
    Ok(all)
}

fn push_token(all: &mut String, token: &TemplateToken) -> Result<(), AllocError> {
    match token {
        TemplateToken::TemplateArgsStart => all.push('‹'),
        TemplateToken::TemplateArgsEnd => all.push('›'),
        TemplateToken::Plain(token) => push_plain(all, token),
    }
}

fn push<T: Display>(all: &mut String, shown: &T) -> Result<(), AllocError> {
    write!(all, "{shown}")?;
    Ok(())
}

fn push_plain(all: &mut String, token: &Token) -> Result<(), AllocError> {
    match token {
        Token::Fixed(fixed) => push(all, fixed),
        Token::Identifier(word) => push(all, word),
        Token::AbstractInt(number) => push(all, number),
        _ => all.push_str("another token"),
    }
}

/// Whether the tokens behind the first one begin with a list.
fn behind_first(alloc: Global, text: &str) -> Result<String, AllocError> {
    let mut tokens = Lexer::new(alloc, text)?;
    let _ = tokens.next();
    told(alloc, parser::recognize_template_list(alloc, tokens)?)
}

/// How many lists and tokens a text has, and how many entries its table, that is made of parts: so often the first, then the second, and so often the last.
fn repeated(alloc: Global, with: &str) -> Result<String, AllocError> {
    let (count, parts) = cut(with);
    let (first, parts) = cut(parts);
    let (middle, last) = cut(parts);
    let count: u64 = count.parse().unwrap_or(0);
    let mut text = String::new(alloc);
    push_times(&mut text, first, count)?;
    text.push_str(middle)?;
    push_times(&mut text, last, count)?;
    let tokens = lexer::lex(alloc, text.as_str())?;
    let lists = lists(tokens.as_slice());
    let count = tokens.as_slice().len();
    let entries = Lexer::new(alloc, text.as_str())?.table_entries();
    format!(in alloc; "{lists} lists, {count} tokens, {entries} entries")
}

fn push_times(text: &mut String, part: &str, count: u64) -> Result<(), AllocError> {
    for _ in 0..count {
        text.push_str(part)?;
    }
    Ok(())
}

/// How many lists start.
fn lists(tokens: &[SpannedTemplateToken]) -> u64 {
    let mut count: u64 = 0;
    for token in tokens {
        if matches!(token.token, TemplateToken::TemplateArgsStart) {
            count = count.saturating_add(1);
        }
    }
    count
}
