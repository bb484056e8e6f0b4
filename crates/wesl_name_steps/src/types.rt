//! Types, as far as members need them.

use wgsl_builtin_names::{Counts, is_part};

/// The type of a value. The numbers of arrays and pointers are those of a table of what they hold.
#[derive(Clone, Copy, PartialEq, Eq)]
pub enum Type {
    Unknown,
    Scalar,
    Vector(u32),
    Matrix { columns: u32, rows: u32 },
    /// The structure at a place.
    Struct(usize),
    Array(usize),
    Pointer(usize),
    Texture { dimensions: u32, is_depth: bool },
    /// A sampler.
    Sampler,
    /// A structure of WGSL's own.
    Parts,
}

/// Which component a letter names, in each of the two sets of letters.
fn component(letter: u8, is_color: bool) -> Option<u32> {
    match (letter, is_color) {
        (b'x', false) | (b'r', true) => Some(0),
        (b'y', false) | (b'g', true) => Some(1),
        (b'z', false) | (b'b', true) => Some(2),
        (b'w', false) | (b'a', true) => Some(3),
        _ => None,
    }
}

/// Whether each letter names a component of a vector of this size.
fn are_components(letters: &[u8], is_color: bool, size: u32) -> bool {
    for letter in letters {
        match component(*letter, is_color) {
            Some(at) if at < size => {}
            _ => return false,
        }
    }
    true
}

/// The type of components of a vector of this size, where the letters name some.
pub fn components(name: &str, size: u32) -> Option<Type> {
    let letters = name.as_bytes();
    if !are_components(letters, false, size) && !are_components(letters, true, size) {
        return None;
    }
    match letters.len() {
        1 => Some(Type::Scalar),
        2 => Some(Type::Vector(2)),
        3 => Some(Type::Vector(3)),
        4 => Some(Type::Vector(4)),
        _ => None,
    }
}

/// The type of what a value of a type that is not told has under a name that no structure has as a member.
pub fn component_or_part(name: &str) -> Option<Type> {
    match components(name, 4) {
        Some(found) => Some(found),
        None if is_part(name) => Some(Type::Unknown),
        None => None,
    }
}

/// How many arguments the constructor of a type takes; nothing, where it has none. `members` is the number of members of a structure.
pub fn constructor_counts(ty: Type, members: u32) -> Option<Counts> {
    match ty {
        Type::Unknown | Type::Array(_) => Some(Counts::Any),
        Type::Scalar => Some(Counts::Between(0, 1)),
        Type::Vector(size) => Some(Counts::Between(0, size)),
        Type::Matrix { columns, rows } => Some(Counts::Matrix { columns, rows }),
        Type::Struct(_) => Some(Counts::NoneOr(members)),
        Type::Pointer(_) | Type::Texture { .. } | Type::Sampler | Type::Parts => None,
    }
}

/// Whether a value of one type may stand for one of another type, as far as the types are told.
pub fn are_alike(one: Type, other: Type) -> bool {
    match (one, other) {
        (Type::Unknown | Type::Parts, _) | (_, Type::Unknown | Type::Parts) => true,
        (Type::Array(_), Type::Array(_)) | (Type::Pointer(_), Type::Pointer(_)) => true,
        (Type::Texture { .. }, Type::Texture { .. }) => true,
        _ => one == other,
    }
}

/// How a type is called in messages. A structure has a name of its own.
pub fn type_name(ty: Type) -> &'static str {
    match ty {
        Type::Vector(2) => "a vec2",
        Type::Vector(3) => "a vec3",
        Type::Vector(4) => "a vec4",
        Type::Vector(_) => "a wrong number of components",
        Type::Matrix { .. } => "a matrix",
        Type::Array(_) => "an array",
        Type::Texture { .. } => "a texture",
        Type::Sampler => "a sampler",
        Type::Scalar => "a scalar",
        Type::Pointer(_) => "a pointer",
        Type::Unknown | Type::Struct(_) | Type::Parts => "",
    }
}
