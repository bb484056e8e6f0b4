//! From a mangled name back to the module and the item.

ghost use Rattle.std.specs.Prelude.{◌≡◌, ◌≤◌, ◌++◌, ℕ, length, IfOk, IfSome};
ghost use Rattle.std.specs.Char.{is_ascii_digit};
ghost use Rattle.std.specs.List.{prefix_len};
ghost use Rattle.wgsl_path.specs.declared.path.PathOrigin.{PathOrigin};
ghost use Rattle.wesl_resolve.specs.Mangling.{underscores};
ghost use Rattle.wesl_resolve.specs.Unmangling.{
  IsUnmangled,
  IsParts,
  IsFirstPart,
  IsCutAfter,
  IsFirstCount,
  IsPlainOrigin,
  origin_name,
  behind,
};

use crate::mangle::EscapeMangler;
use std::alloc::{AllocError, Global};
use wgsl_base::{Items, Text};
use wgsl_path::{ModulePath, PathOrigin};

impl EscapeMangler {
    /// The module and the item that a name was mangled from. They come back where the path is not relative, its package
    /// is not called `package`, and no name is empty or begins with an ASCII digit.
    pub fn unmangle(
        &self,
        alloc: Global,
        name: &str,
    ) -> Result<Option<(ModulePath, Text)>, AllocError>
        ensures { IfOk result (IsUnmangled name.now) }
    {
        let Some((first, rest)) = read_part(alloc, name)? else {
            return Ok(None);
        };
        let Some(mut components) = read_parts(alloc, rest)? else {
            return Ok(None);
        };
        let Some(item) = components.pop() else {
            return Ok(None);
        };
        Ok(Some((ModulePath::new(origin_of(first), components), item)))
    }
}

/// The origin that a first part stands for.
fn origin_of(first: Text) -> PathOrigin
    ensures { (origin : PathOrigin) → IsPlainOrigin origin → first ≡ origin_name origin → result ≡ origin }
{
    if first.as_str() == "package" {
        PathOrigin::Absolute
    } else {
        PathOrigin::Package(first)
    }
}

/// The parts that stand behind a first one.
fn read_parts(alloc: Global, text: Option<&str>) -> Result<Option<Items<Text>>, AllocError>
    ensures { IfOk result (IsParts (behind text.entry)) }
{
    let mut parts = Items::new(alloc);
    let mut rest = text;
    while let Some(more) = rest {
        let Some((part, after)) = read_part(alloc, more)? else {
            return Ok(None);
        };
        parts.push(part)?;
        rest = after;
    }
    Ok(Some(parts))
}

/// A part, and what stands behind the `_` after it.
fn read_part<'a>(
    alloc: Global,
    text: &'a str,
) -> Result<Option<(Text, Option<&'a str>)>, AllocError>
    ensures reads { IfOk result (IsFirstPart text.now) }
    ensures shrinks { IfOk result (λ answer. IfSome answer (λ read. length (behind read.1) ≤ length text.now)) }
{
    // A length fits a `usize`, and so does the number of underscores in a part.
    let _length = text.len();
    match text.strip_prefix('_') {
        None => take_part(alloc, 0, text),
        Some(counted) => match read_count(counted) {
            None => Ok(None),
            Some((count, text)) => take_part(alloc, count, text),
        },
    }
}

/// The decimal number that a text begins with, and what stands behind it.
fn read_count(text: &str) -> Option<(usize, &str)>
    ensures reads { IsFirstCount text.now result }
    ensures shrinks { IfSome result (λ read. length read.1.now ≤ length text.now) }
{
    let (digits, rest) = text.split_at(digit_run(text));
    match digits.parse::<usize>() {
        Ok(count) => Some((count, rest)),
        Err(_) => None,
    }
}

/// How many digits a text begins with.
fn digit_run(text: &str) -> usize
    ensures { result ≡ prefix_len is_ascii_digit text.now }
{
    text.bytes()
        .take_while(|byte| byte.is_ascii_digit())
        .count()
}

/// A part with so many underscores, and what stands behind the `_` after it.
fn take_part<'a>(
    alloc: Global,
    count: usize,
    text: &'a str,
) -> Result<Option<(Text, Option<&'a str>)>, AllocError>
    ensures { IfOk result (IsCutAfter count text.now) }
{
    let mut part = Text::new(alloc);
    let mut rest = text;
    for _underscore in 0..count {
        let (piece, Some(after)) = first_piece(rest) else {
            return Ok(None);
        };
        part.push_str(piece)?;
        part.push_str("_")?;
        rest = after;
    }
    let (piece, after) = first_piece(rest);
    part.push_str(piece)?;
    Ok(Some((part, after)))
}

/// A text up to the first `_`, and what stands behind that.
fn first_piece(text: &str) -> (&str, Option<&str>)
    ensures splits { text.now ≡ result.0.now ++ behind result.1 }
    ensures none { underscores result.0.now ≡ 0 }
{
    match text.split_once('_') {
        None => (text, None),
        Some((piece, rest)) => (piece, Some(rest)),
    }
}
