//! What names a part: the letters of components, indices, and names of members.

ghost use Rattle.std.specs.Prelude.{◌≡◌, ◌||◌, Err};
ghost use Rattle.wgsl_instance.specs.Answer.{Answers};
ghost use Rattle.wgsl_instance.specs.Parts as spec;

use std::alloc::Global;
use wgsl_base::Text;
use wgsl_shader_type::{Error, StructMemberType, Type};

/// Whether a letter is one of `xyzw`.
pub fn is_xyzw(letter: u8) -> bool
    ensures { result ≡ spec.is_xyzw letter }
{
    letter == 120 || letter == 121 || letter == 122 || letter == 119
}

/// Whether a letter is one of `rgba`.
pub fn is_rgba(letter: u8) -> bool
    ensures { result ≡ spec.is_rgba letter }
{
    letter == 114 || letter == 103 || letter == 98 || letter == 97
}

/// The position of the component that a letter names.
pub fn letter_index(letter: u8) -> usize
    ensures { result ≡ spec.letter_index letter }
{
    if letter == 120 || letter == 114 {
        0
    } else if letter == 121 || letter == 103 {
        1
    } else if letter == 122 || letter == 98 {
        2
    } else {
        3
    }
}

/// An index in a list of so many.
pub fn in_range(index: i64, count: usize) -> Option<usize>
    ensures { result ≡ spec.in_range index count }
{
    let position = usize::try_from(index).ok()?;
    if position < count {
        Some(position)
    } else {
        None
    }
}

/// The position of the first member of this name.
pub fn member_position(members: &[StructMemberType], name: &str) -> Option<usize>
    ensures { result ≡ spec.member_position name.now members.now }
{
    members
        .iter()
        .position(|member| member.name.as_str() == name)
}

/// The refusal of a name that is no component or member of the type.
pub fn no_component<T: Drop>(alloc: Global, ty: &Type, name: &str) -> Result<T, Error>
    ensures { Answers (Err (spec.no_component ty.now name.now)) result }
{
    let ty = ty.clone(alloc)?;
    component_error(alloc, ty, name)
}

/// The refusal of a name that is no component or member of a type, which it takes.
pub(crate) fn component_error<T: Drop>(alloc: Global, ty: Type, name: &str) -> Result<T, Error>
    ensures { Answers (Err (spec.no_component ty name.now)) result }
{
    match Text::from_str(alloc, name) {
        Ok(name) => Err(Error::Component(ty, name)),
        Err(error) => {
            drop(ty);
            Err(Error::from(error))
        }
    }
}
