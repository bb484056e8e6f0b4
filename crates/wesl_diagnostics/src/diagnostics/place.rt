//! Where an error is.

use crate::diagnostics::error_line::ErrorLine;
use std::alloc::{AllocError, Global};
use wgsl_base::Text;
use wgsl_lex::lex;
use wgsl_path::Span;
use wgsl_token::{Fixed, Token};

/// A module that was read: its path as it is printed, its file and its text.
#[derive(Clone, Copy)]
pub struct SourceFile<'a> {
    pub path: &'a str,
    pub file: &'a str,
    pub text: &'a str,
}

/// Which of the places of a name is wanted. Where there is none such, it is the first.
#[derive(Clone, Copy)]
pub enum Seek {
    First,
    Second,
    /// The first behind a word that declares a name.
    Declared,
}

/// Whether a name that is declared stands behind a token. A `>` is one where it ends the template list of a `var`, whose name is still to
/// come.
fn declares(token: &Token, is_in_var: bool) -> bool {
    match token {
        Token::Fixed(Fixed::GreaterThan) => is_in_var,
        Token::Fixed(fixed) => matches!(
            *fixed,
            Fixed::Fn
                | Fixed::Const
                | Fixed::Struct
                | Fixed::Alias
                | Fixed::Override
                | Fixed::Let
                | Fixed::Var
        ),
        _ => false,
    }
}

/// Whether behind a token the name of a `var` may still be to come.
fn is_in_var_behind(is_in_var: bool, token: &Token) -> bool {
    match token {
        Token::Fixed(Fixed::Var) => true,
        Token::Fixed(Fixed::GreaterThan | Fixed::Colon | Fixed::Equal | Fixed::Semicolon) => false,
        _ => is_in_var,
    }
}

fn is_name(token: &Token, name: &str) -> bool {
    match token {
        Token::Identifier(identifier) => identifier.as_str() == name,
        _ => false,
    }
}

/// Whether this place of a name is the one that is sought, and no other need be looked at.
fn is_sought(seek: Seek, is_declared: bool, is_again: bool) -> bool {
    match seek {
        Seek::First => true,
        Seek::Second => is_again,
        Seek::Declared => is_declared,
    }
}

/// A place of a name in a text, in comments not. Only memory can fail.
pub fn find_name(
    alloc: Global,
    text: &str,
    name: &str,
    seek: Seek,
) -> Result<Option<Span>, AllocError> {
    let tokens = lex(alloc, text)?;
    let mut first: Option<Span> = None;
    let mut is_declared = false;
    let mut is_in_var = false;
    for spanned in tokens.as_slice() {
        if is_name(&spanned.token, name) {
            if is_sought(seek, is_declared, first.is_some()) {
                return Ok(Some(spanned.span));
            }
            if first.is_none() {
                first = Some(spanned.span);
            }
        }
        is_declared = declares(&spanned.token, is_in_var);
        is_in_var = is_in_var_behind(is_in_var, &spanned.token);
    }
    Ok(first)
}

/// The place of a name in a part of a text, in comments not: the first one there, or the last. Only memory can fail.
pub fn find_name_in(
    alloc: Global,
    text: &str,
    span: Span,
    name: &str,
    is_last: bool,
) -> Result<Option<Span>, AllocError> {
    let Some(part) = text.get(span.start..span.end) else {
        return Ok(None);
    };
    let tokens = lex(alloc, part)?;
    let mut found: Option<Span> = None;
    for spanned in tokens.as_slice() {
        if is_name(&spanned.token, name) && (is_last || found.is_none()) {
            found = Some(Span {
                start: span.start.saturating_add(spanned.span.start),
                end: span.start.saturating_add(spanned.span.end),
            });
        }
    }
    Ok(found)
}

/// How deep in braces a token leaves those that stand behind it.
fn depth_behind(depth: usize, token: &Token) -> usize {
    match token {
        Token::Fixed(Fixed::BraceLeft) => depth.saturating_add(1),
        Token::Fixed(Fixed::BraceRight) => depth.saturating_sub(1),
        _ => depth,
    }
}

/// The names that a module declares, in their order. Only memory can fail.
pub fn declared_names(alloc: Global, text: &str) -> Result<Vec<Text>, AllocError> {
    let tokens = lex(alloc, text)?;
    let mut names = Vec::new(alloc);
    let mut depth = 0;
    let mut is_declared = false;
    let mut is_in_var = false;
    for spanned in tokens.as_slice() {
        if depth == 0 && is_declared {
            if let Token::Identifier(name) = &spanned.token {
                names.push(Text::from_str(alloc, name.as_str())?)?;
            }
        }
        depth = depth_behind(depth, &spanned.token);
        is_declared = declares(&spanned.token, is_in_var);
        is_in_var = is_in_var_behind(is_in_var, &spanned.token);
    }
    Ok(names)
}

/// The module at a path.
fn source_at<'a>(sources: &[SourceFile<'a>], path: Option<&str>) -> Option<SourceFile<'a>> {
    match path {
        Some(path) => {
            for source in sources {
                if source.path == path {
                    return Some(*source);
                }
            }
            None
        }
        None => sources.first().copied(),
    }
}

/// The first place of a name in modules other than one, and the module.
fn find_use<'a>(
    alloc: Global,
    sources: &[SourceFile<'a>],
    but: Option<&str>,
    name: &str,
) -> Result<Option<(SourceFile<'a>, Span)>, AllocError> {
    for source in sources {
        if Some(source.path) == but {
            continue;
        }
        if let Some(span) = find_name(alloc, source.text, name, Seek::First)? {
            return Ok(Some((*source, span)));
        }
    }
    Ok(None)
}

/// The place of a name in the module of an error, or where that has none, of the declaration.
fn find_in_module<'a>(
    alloc: Global,
    source: SourceFile<'a>,
    line: &ErrorLine<'_>,
    seek: Seek,
) -> Result<Option<(SourceFile<'a>, Span)>, AllocError> {
    if let Some(name) = line.subject {
        if let Some(span) = find_name(alloc, source.text, name, seek)? {
            return Ok(Some((source, span)));
        }
    }
    let Some(name) = line.declaration else {
        return Ok(None);
    };
    match find_name(alloc, source.text, name, Seek::Declared)? {
        Some(span) => Ok(Some((source, span))),
        None => Ok(None),
    }
}

/// The last part of a path.
fn last_part(path: &str) -> &str {
    match path.rsplit_once("::") {
        Some((_, last)) => last,
        None => path,
    }
}

/// Where an error is: the module, and the part of its text. What an error line has no place of is sought by its names, so the place
/// is then the first that has such a name. Of the modules the first is the root.
pub fn find_place<'a>(
    alloc: Global,
    line: &ErrorLine<'_>,
    sources: &[SourceFile<'a>],
) -> Result<Option<(SourceFile<'a>, Span)>, AllocError> {
    if let Some(span) = line.span {
        return match source_at(sources, line.module) {
            Some(source) => Ok(Some((source, span))),
            None => Ok(None),
        };
    }
    match line.kind {
        "Resolve.ModuleNotFound" | "TooManyModules" => match line.module {
            Some(path) => find_use(alloc, sources, Some(path), last_part(path)),
            None => Ok(None),
        },
        "Import.MissingDecl" | "Import.Private" => find_import(alloc, line, sources),
        "NameClash" | "UnclearName" | "Unprintable" => match line.subject {
            Some(name) => find_use(alloc, sources, None, name),
            None => Ok(None),
        },
        "Import.DuplicateSymbol" | "Validate.Duplicate" => match source_at(sources, line.module) {
            Some(source) => find_in_module(alloc, source, line, Seek::Second),
            None => Ok(None),
        },
        _ => match source_at(sources, line.module) {
            Some(source) => find_in_module(alloc, source, line, Seek::First),
            None => Ok(None),
        },
    }
}

/// Where a name that a module lacks is asked for: in another module first.
fn find_import<'a>(
    alloc: Global,
    line: &ErrorLine<'_>,
    sources: &[SourceFile<'a>],
) -> Result<Option<(SourceFile<'a>, Span)>, AllocError> {
    let Some(name) = line.subject else {
        return Ok(None);
    };
    match find_use(alloc, sources, line.module, name)? {
        Some(found) => Ok(Some(found)),
        None => find_use(alloc, sources, None, name),
    }
}
