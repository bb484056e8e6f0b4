//! Reading the texts of paths.

ghost use denote.Ref.{Bor};
ghost use Rattle.std.specs.Prelude.{◌≡◌, ◌∷◌, ◌++◌, ◌+◌, ◌≤◌, ℕ, List, Option, length, IfOk};
ghost use Rattle.wgsl_path.specs.Paths.{origin_text, path_text, supers, components_text, rest_text};
ghost use Rattle.wgsl_path.specs.Reading.{parts, left_parts, component_of, components_of, path_behind, path_above, path_of, Continues, Answers};
ghost use Rattle.wgsl_path.specs.declared.path.PathOrigin.TheVariants.{Relative};

use crate::path::{ModulePath, PathOrigin};
use std::alloc::{AllocError, Global};
use thiserror::Error as Message;
use wgsl_base::{Items, Text};

/// Why a text is no path.
#[derive(Clone, Copy, Debug, PartialEq, Eq, Message)]
pub enum ModulePathParseError {
    /// The text, or a part of it between two `::`, is empty.
    #[error("a part of the path is empty")]
    Empty,
    #[error("`package` stands behind another part")]
    MisplacedPackage,
    #[error("`self` stands behind another part")]
    MisplacedSelf,
    /// `super` behind a part that is no `super`.
    #[error("`super` stands behind another part")]
    MisplacedSuper,
    /// Memory was refused. This says nothing of the text.
    #[error("out of memory")]
    OutOfMemory,
}

impl From<AllocError> for ModulePathParseError {
    ghost use Rattle.wgsl_path.specs.declared.reading.ModulePathParseError.TheVariants.{OutOfMemory};

    ghost from_gives = { λ _ e. e ≡ OutOfMemory };

    fn from(_: AllocError) -> ModulePathParseError {
        ModulePathParseError::OutOfMemory
    }
}

impl ModulePath {
    /// Reads what `Display` writes: an origin and names with `::` between. The first part that is empty or misplaced is
    /// refused.
    pub fn from_str(alloc: Global, text: &str) -> Result<ModulePath, ModulePathParseError>
        ensures prints { IfOk result (λ path. path_text path ≡ text.now) }
        ensures reads { Answers ModulePath result (path_of (parts text.now)) }
    {
        let (origin, rest) = read_origin(alloc, text)?;
        let components = read_components(alloc, rest)?;
        Ok(ModulePath { origin, components })
    }
}

/// A text up to the first `::`, and what stands behind that.
fn first_part(text: &str) -> (&str, Option<&str>)
    ensures splits { text.now ≡ result.0.now ++ rest_text result.1 }
    ensures first { parts text.now ≡ result.0.now ∷ left_parts result.1 }
{
    match text.split_once("::") {
        None => (text, None),
        Some((part, rest)) => (part, Some(rest)),
    }
}

fn read_origin<'a>(
    alloc: Global,
    text: &'a str,
) -> Result<(PathOrigin, Option<&'a str>), ModulePathParseError>
    ensures prints { IfOk result (λ read. origin_text read.0 ++ rest_text read.1 ≡ text.now) }
    ensures reads { Continues (PathOrigin × Option (Bor (List ℕ))) ModulePath result (path_of (parts text.now)) (λ read. path_behind read.0 (left_parts read.1)) }
{
    let (part, rest) = first_part(text);
    match part {
        "" => Err(ModulePathParseError::Empty),
        "package" => Ok((PathOrigin::Absolute, rest)),
        "self" => Ok((PathOrigin::Relative(0), rest)),
        "super" => {
            let (levels, rest) = read_supers(rest);
            Ok((PathOrigin::Relative(levels + 1), rest))
        }
        name => Ok((PathOrigin::Package(Text::from_str(alloc, name)?), rest)),
    }
}

/// How often `super` stands next, and what stands behind that.
fn read_supers(text: Option<&str>) -> (usize, Option<&str>)
    ensures read { supers result.0 ++ rest_text result.1 ≡ rest_text text.entry }
    ensures above { (n : ℕ) → path_above n (left_parts text.entry) ≡ path_behind (Relative (result.0 + n)) (left_parts result.1) }
    ensures few { result.0 + length (rest_text result.1) ≤ length (rest_text text.entry) }
{
    let mut levels = 0;
    let mut rest = text;
    while let Some(more) = rest {
        let (part, after) = first_part(more);
        if part == "super" {
            levels += 1;
            rest = after;
        } else {
            break;
        }
    }
    (levels, rest)
}

fn read_components(alloc: Global, text: Option<&str>) -> Result<Items<Text>, ModulePathParseError>
    ensures prints { IfOk result (λ components. components_text components ≡ rest_text text.entry) }
    ensures reads { Answers (List (List ℕ)) result (components_of (left_parts text.entry)) }
{
    let mut components = Items::new(alloc);
    let mut rest = text;
    while let Some(more) = rest {
        let (part, after) = first_part(more);
        components.push(read_component(alloc, part)?)?;
        rest = after;
    }
    Ok(components)
}

fn read_component(alloc: Global, part: &str) -> Result<Text, ModulePathParseError>
    ensures copies { IfOk result (λ component. component ≡ part.now) }
    ensures reads { Answers (List ℕ) result (component_of part.now) }
{
    match part {
        "" => Err(ModulePathParseError::Empty),
        "package" => Err(ModulePathParseError::MisplacedPackage),
        "self" => Err(ModulePathParseError::MisplacedSelf),
        "super" => Err(ModulePathParseError::MisplacedSuper),
        name => Ok(Text::from_str(alloc, name)?),
    }
}
