//! What each call answers: the tree's text, with `\n` for each line's end, or the error's kind and place. A fault's call
//! answers `none` in place of the tree's text. Tokens, template lists and modules with another name have calls of their own.

use crate::parser::{lists, made, places};
use core_narrowing::{NarrowError, narrow};
use std::alloc::{AllocError, Global};
use std::fmt::{Display, Write};
use wgsl_parse::Error;
use wgsl_parse::parser::{
    check_str, parse_declaration, parse_declaration_kind, parse_directive, parse_expression,
    parse_import, parse_statement, parse_str,
};

/// The text before the first tab, and the text behind it.
pub fn cut(text: &str) -> (&str, &str) {
    text.split_once('\t').unwrap_or((text, ""))
}

/// The answer to a call.
pub fn answer(alloc: Global, case: &str) -> Result<String, AllocError> {
    let (call, text) = cut(case);
    match call {
        "module" => shown(alloc, parse_str(alloc, text)),
        "expression" => shown(alloc, parse_expression(alloc, text)),
        "statement" => shown(alloc, parse_statement(alloc, text)),
        "declaration" => shown(alloc, parse_declaration(alloc, text)),
        "directive" => shown(alloc, parse_directive(alloc, text)),
        "import" => shown(alloc, parse_import(alloc, text)),
        "kind" => shown(alloc, parse_declaration_kind(alloc, text)),
        "fault" => fault(alloc, text),
        "told" => places::told(alloc, text),
        "source" => places::with_source(alloc, text),
        "narrowed" => narrowed(alloc, text),
        "made" => {
            let (text, name) = cut(text);
            made::answer(alloc, text, name)
        }
        call => lists::answer(alloc, call, text),
    }
}

/// What is printed of a module as a unit of the part.
fn narrowed(alloc: Global, text: &str) -> Result<String, AllocError> {
    match parse_str(alloc, text) {
        Ok(unit) => match narrow(alloc, &unit) {
            Ok(unit) => on_one_line(alloc, &unit),
            Err(NarrowError::Unsupported) => String::from_str(alloc, "unsupported"),
            Err(NarrowError::OutOfMemory) => Err(AllocError),
        },
        Err(error) => told(alloc, error),
    }
}

/// The fault of the text behind the first tab, read from what the text before it names.
fn fault(alloc: Global, case: &str) -> Result<String, AllocError> {
    let (start, text) = cut(case);
    match start {
        "module" => fault_of(alloc, parse_str(alloc, text)),
        "check" => fault_of(alloc, check_str(alloc, text)),
        "expression" => fault_of(alloc, parse_expression(alloc, text)),
        "statement" => fault_of(alloc, parse_statement(alloc, text)),
        "declaration" => fault_of(alloc, parse_declaration(alloc, text)),
        "directive" => fault_of(alloc, parse_directive(alloc, text)),
        "import" => fault_of(alloc, parse_import(alloc, text)),
        "kind" => fault_of(alloc, parse_declaration_kind(alloc, text)),
        _ => String::from_str(alloc, "no such start"),
    }
}

fn fault_of<T: Drop>(alloc: Global, tree: Result<T, Error>) -> Result<String, AllocError> {
    match tree {
        Ok(_) => String::from_str(alloc, "none"),
        Err(error) => told(alloc, error),
    }
}

fn shown<T: Display + Drop>(alloc: Global, tree: Result<T, Error>) -> Result<String, AllocError> {
    match tree {
        Ok(tree) => on_one_line(alloc, &tree),
        Err(error) => told(alloc, error),
    }
}

fn told(alloc: Global, error: Error) -> Result<String, AllocError> {
    let kind = error.kind;
    let place = error.span;
    format!(in alloc; "{kind:?} {}..{}", place.start, place.end)
}

fn on_one_line<T: Display>(alloc: Global, tree: &T) -> Result<String, AllocError> {
    let mut text = String::new(alloc);
    write!(text, "{tree}")?;
    let mut line = String::new(alloc);
    for character in text.as_str().chars() {
        if character == '\n' {
            line.push_str("\\n")?;
        } else {
            line.push(character)?;
        }
    }
    Ok(line)
}
