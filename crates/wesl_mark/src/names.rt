//! Tables of names and of references, which give each a number.

ghost use Rattle.std.specs.Prelude.{◌≡◌, ◌<◌, ℕ, List, Some, String, length, slice_get, IfOk};
ghost use Rattle.std.specs.declared.alloc.Global.{Global};
ghost use Rattle.wesl_mark.specs.Marks.{name_at, AreApart, AreNamed, Keeps};

use indexmap::IndexSet;
use std::alloc::{AllocError, Global};
use wgsl_path::ModulePath;

/// A name as a tree uses it, maybe behind the path of a module. `name` is the number of its text.
#[derive(Drop, PartialEq, Eq, Hash)]
pub struct Reference {
    pub path: Option<ModulePath>,
    pub name: u32,
}

/// The number of a name, which is added where it is not there yet. More names than a `u32` counts are out of memory.
pub(crate) fn name_number(
    alloc: Global,
    names: &mut IndexSet<String>,
    name: &str,
) -> Result<u32, AllocError>
    requires { AreApart names.old.keys }
    ensures reads { IfOk result (λ number. name_at names.new.keys number ≡ Some name.now) }
    ensures keeps { Keeps names.old.keys names.new.keys }
    ensures apart { AreApart names.new.keys }
{
    let (at, _) = names.insert_full(String::from_str(alloc, name)?)?;
    numbered(at)
}

/// The number of a reference, which is added where it is not there yet. More than a `u32` counts are out of memory.
pub(crate) fn reference_number(
    references: &mut IndexSet<Reference>,
    reference: Reference,
) -> Result<u32, AllocError>
    ensures reads { IfOk result (λ number. slice_get references.new.keys number ≡ Some reference) }
    ensures keeps { Keeps references.old.keys references.new.keys }
    ensures named { (names : List (String Global)) → reference.name < length names → AreNamed names references.old.keys → AreNamed names references.new.keys }
{
    let (at, _) = references.insert_full(reference)?;
    numbered(at)
}

/// A number as a `u32`. One that does not fit is out of memory.
pub(crate) fn numbered(at: usize) -> Result<u32, AllocError>
    ensures { IfOk result (λ number. number ≡ at) }
{
    match u32::try_from(at) {
        Ok(number) => Ok(number),
        Err(_) => Err(AllocError),
    }
}
