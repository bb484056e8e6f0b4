//! Printed paths, compared without memory.

ghost use Rattle.std.specs.Prelude.{◌≡◌, ◌++◌};
ghost use Rattle.std.specs.Str.{bytes_eq};
ghost use Rattle.wgsl_path.specs.Paths.{supers, origin_text, path_text};
ghost use Rattle.weslc_workspace.specs.Behind.{IsBehind};

use wgsl_path::{ModulePath, PathOrigin};

/// What stands in a text behind its beginning.
fn behind<'a>(front: &str, text: &'a [u8]) -> Option<&'a [u8]>
    ensures { IsBehind front.now text.now result }
{
    text.strip_prefix(front.as_bytes())
}

/// What stands in a text behind two beginnings, one behind the other.
fn behind_both<'a>(first: &str, second: &str, text: &'a [u8]) -> Option<&'a [u8]>
    ensures { IsBehind (first.now ++ second.now) text.now result }
{
    behind(second, behind(first, text)?)
}

/// What stands in a text behind so many `::super`.
fn behind_supers(count: usize, text: &[u8]) -> Option<&[u8]>
    ensures { IsBehind (supers count) text.now result }
{
    let mut rest = text;
    for _level in 0..count {
        rest = behind("::super", rest)?;
    }
    Some(rest)
}

/// What stands in a text behind a printed origin.
fn behind_origin<'a>(origin: &PathOrigin, text: &'a [u8]) -> Option<&'a [u8]>
    ensures { IsBehind (origin_text origin.now) text.now result }
{
    match origin {
        PathOrigin::Absolute => behind("package", text),
        PathOrigin::Relative(0) => behind("self", text),
        PathOrigin::Relative(levels) => behind_supers(*levels - 1, behind("super", text)?),
        PathOrigin::Package(name) => behind(name.as_str(), text),
    }
}

/// What stands in a text behind a printed path.
fn behind_path<'a>(path: &ModulePath, text: &'a [u8]) -> Option<&'a [u8]>
    ensures { IsBehind (path_text path.now) text.now result }
{
    let mut rest = behind_origin(&path.origin, text)?;
    for component in path.components.as_slice() {
        rest = behind_both("::", component.as_str(), rest)?;
    }
    Some(rest)
}

/// Whether a path is printed as this text. It needs no memory.
pub(crate) fn is_printed(path: &ModulePath, text: &str) -> bool
    ensures { result ≡ bytes_eq (path_text path.now) text.now }
{
    match behind_path(path, text.as_bytes()) {
        Some(rest) => rest.is_empty(),
        None => false,
    }
}
