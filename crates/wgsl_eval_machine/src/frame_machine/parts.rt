//! Parts of values, and the bounds of types.

use wgsl_memory::{Instance, Step};
use wgsl_shader_type::{StructMemberType, Type};

/// How deep types may nest.
const MAX_DEPTH: u32 = 2500;

/// How many parts a type or a value may have: scalars, vectors, arrays, structures, pointers and references, and the members of the types of
/// structures. Those of the types that a value holds are its parts, too.
const MAX_PARTS: u64 = 1 << 19;

/// The structure or the array at the end of a path.
pub fn find_part<'a>(whole: &'a Instance, path: &[Step]) -> Option<&'a Instance> {
    let mut part = whole;
    for step in path {
        part = match (*step, part) {
            (Step::Member(i), Instance::Struct(x)) => x.members.get(i)?,
            (Step::Element(i), Instance::Array(x)) => x.components.get(i)?,
            _ => return None,
        };
    }
    Some(part)
}

/// Whether a copy of a value is as cheap as its place.
pub fn is_small(value: &Instance) -> bool {
    !matches!(value, Instance::Array(_) | Instance::Struct(_))
}

/// How many parts a type has, and how many a value of it, which holds the types of its parts.
#[derive(Clone, Copy)]
pub(crate) struct Extent {
    pub ty: u64,
    pub value: u64,
}

/// Of a scalar.
const SCALAR: Extent = Extent { ty: 1, value: 1 };

/// Of something with so many elements.
fn of_elements(element: Extent, count: u64) -> Extent {
    let ty = element.ty.saturating_add(1);
    Extent {
        ty,
        value: element.value.saturating_mul(count).saturating_add(ty),
    }
}

/// The extent of a type, unless it nests deeper than this.
#[cycle(measure)]
fn measured(ty: &Type, depth: u32) -> Option<Extent> {
    let depth = depth.checked_sub(1)?;
    match ty {
        Type::Array(element, Some(count)) => {
            Some(of_elements(measured(element.get(), depth)?, *count as u64))
        }
        Type::Array(element, None) => Some(of_elements(measured(element.get(), depth)?, 0)),
        Type::Vec(count, component) => Some(of_elements(
            measured(component.get(), depth)?,
            u64::from(*count),
        )),
        Type::Ptr(_, stored, _) => Some(of_elements(measured(stored.get(), depth)?, 0)),
        Type::Ref(_, stored, _) => Some(of_elements(measured(stored.get(), depth)?, 0)),
        Type::Struct(x) => measured_members(x.get().members.as_slice(), depth),
        _ => Some(SCALAR),
    }
}

#[cycle(measure)]
fn measured_members(members: &[StructMemberType], depth: u32) -> Option<Extent> {
    let mut ty = 1u64;
    let mut values = 0u64;
    for member in members {
        let extent = measured(&member.ty, depth)?;
        ty = ty.saturating_add(extent.ty).saturating_add(1);
        values = values.saturating_add(extent.value);
    }
    Some(Extent {
        ty,
        value: values.saturating_add(ty),
    })
}

/// The extent of a type, unless it nests more than 2,500 deep.
pub(crate) fn extent_of(ty: &Type) -> Option<Extent> {
    measured(ty, MAX_DEPTH)
}

/// Whether a type or a value has more parts than is taken.
pub(crate) fn is_too_large(parts: u64) -> bool {
    parts > MAX_PARTS
}

/// How many parts a type has that is more than a scalar or a vector.
pub(crate) fn parts_of_type(ty: &Type) -> u64 {
    match ty {
        Type::Array(_, _) | Type::Struct(_) | Type::Ptr(_, _, _) | Type::Ref(_, _, _) => {
            match extent_of(ty) {
                Some(extent) => extent.ty,
                None => 0,
            }
        }
        _ => 0,
    }
}

fn parts_of_struct(members: &[StructMemberType]) -> Option<u64> {
    Some(measured_members(members, MAX_DEPTH)?.value)
}

/// How many parts an array of so many elements of a type has, unless the type nests too deep.
pub(crate) fn parts_of_array(element: &Type, count: usize) -> Option<u64> {
    Some(of_elements(extent_of(element)?, count as u64).value)
}

/// How many parts a value has that is more than a scalar or a vector. A reference or a pointer has those of its type.
pub(crate) fn parts_of(value: &Instance) -> u64 {
    let parts = match value {
        Instance::Array(x) => parts_of_array(&x.element, x.components.len()),
        Instance::Struct(x) => parts_of_struct(x.ty.members.as_slice()),
        Instance::Ref(x) => return parts_of_type(&x.ty),
        Instance::Ptr(x) => return parts_of_type(&x.reference.ty),
        _ => None,
    };
    parts.unwrap_or(0)
}
