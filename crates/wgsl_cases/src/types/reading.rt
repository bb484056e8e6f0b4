//! Types, literals and arguments of templates, as the cases write them: in WGSL's form, a struct as `S{a: u32 & b: bool}`.

use std::alloc::{AllocError, Global};
use wgsl_base::{Boxed, FromIn, Items, Text};
use wgsl_types::{
    AccessMode, AddressSpace, Enumerant, LiteralInstance, ShaderType, StructMemberType, StructType,
    TpltParam, Type,
};

/// A scalar type; `bool` where there is none of this name.
fn scalar(name: &str) -> Type {
    match name {
        "AbstractInt" => Type::AbstractInt,
        "AbstractFloat" => Type::AbstractFloat,
        "i32" => Type::I32,
        "u32" => Type::U32,
        "f32" => Type::F32,
        "f16" => Type::F16,
        _ => Type::Bool,
    }
}

/// A scalar, or a vector of one.
fn vector(alloc: Global, text: &str) -> Result<Type, AllocError> {
    let (name, of) = text.split_once('<').unwrap_or(("", text));
    let n = match name {
        "vec2" => 2,
        "vec3" => 3,
        "vec4" => 4,
        _ => return Ok(scalar(of)),
    };
    Ok(ShaderType::Vec(n, Boxed::new(alloc, scalar(of.trim_end_matches('>')))?))
}

/// An array of scalars or vectors.
fn array(alloc: Global, of: &str) -> Result<Type, AllocError> {
    let (of, count) = of.split_once(", ").unwrap_or((of, ""));
    let count = count.trim_end_matches('>').parse::<usize>().ok();
    Ok(ShaderType::Array(Boxed::new(alloc, vector(alloc, of)?)?, count))
}

/// A pointer to a scalar or a vector, or a reference, with its access mode.
fn place(alloc: Global, of: &str, is_pointer: bool) -> Result<Type, AllocError> {
    let (space, of) = of.split_once(", ").unwrap_or(("", of));
    let (of, access) = of.split_once(", ").unwrap_or((of, ""));
    let space = space
        .parse::<AddressSpace>()
        .unwrap_or(AddressSpace::Function);
    let access = access
        .trim_end_matches('>')
        .parse::<AccessMode>()
        .unwrap_or(AccessMode::Read);
    let stored = Boxed::new(alloc, vector(alloc, of)?)?;
    Ok(if is_pointer {
        ShaderType::Ptr(space, stored, access)
    } else {
        ShaderType::Ref(space, stored, access)
    })
}

fn plain_type(alloc: Global, text: &str) -> Result<Type, AllocError> {
    let (name, of) = text.split_once('<').unwrap_or((text, ""));
    match name {
        "array" => array(alloc, of),
        "ptr" => place(alloc, of, true),
        "ref" => place(alloc, of, false),
        _ => vector(alloc, text),
    }
}

/// What the cases write in lists.
pub trait Read: Sized {
    fn read(alloc: Global, text: &str) -> Result<Self, AllocError>;
}

/// Adds what a text has between separators.
fn read_all<T: Read + Drop>(
    alloc: Global,
    all: &mut Items<T>,
    text: &str,
    separator: &str,
) -> Result<(), AllocError> {
    for part in text.split(separator) {
        if !part.is_empty() {
            all.push(T::read(alloc, part)?)?;
        }
    }
    Ok(())
}

/// What a text has between separators.
pub fn list_of<T: Read + Drop>(
    alloc: Global,
    text: &str,
    separator: &str,
) -> Result<Items<T>, AllocError> {
    let mut all = Items::new(alloc);
    read_all(alloc, &mut all, text, separator)?;
    Ok(all)
}

impl Read for Type {
    fn read(alloc: Global, text: &str) -> Result<Type, AllocError> {
        if text.contains('{') {
            ShaderType::from_in(alloc, struct_of(alloc, text)?)
        } else {
            plain_type(alloc, text)
        }
    }
}

impl Read for StructMemberType {
    fn read(alloc: Global, text: &str) -> Result<StructMemberType, AllocError> {
        let (name, ty) = text.split_once(": ").unwrap_or((text, ""));
        let align = if name.starts_with('@') { Some(0) } else { None };
        let name = Text::from_str(alloc, name)?;
        let ty = plain_type(alloc, ty)?;
        Ok(StructMemberType {
            name,
            ty,
            size: None,
            align,
        })
    }
}

pub fn struct_of(alloc: Global, text: &str) -> Result<StructType, AllocError> {
    let (name, of) = text.split_once('{').unwrap_or((text, ""));
    let members = list_of(alloc, of.trim_end_matches('}'), " & ")?;
    Ok(StructType::new(Text::from_str(alloc, name)?, members))
}

pub fn literal_of(text: &str) -> Option<LiteralInstance> {
    if let Some(number) = text.strip_suffix('u') {
        Some(LiteralInstance::U32(number.parse::<u32>().ok()?))
    } else if let Some(number) = text.strip_suffix('i') {
        Some(LiteralInstance::I32(number.parse::<i32>().ok()?))
    } else if text == "true" {
        Some(LiteralInstance::Bool(true))
    } else {
        Some(LiteralInstance::AbstractInt(text.parse::<i64>().ok()?))
    }
}

impl Read for TpltParam {
    fn read(alloc: Global, text: &str) -> Result<TpltParam, AllocError> {
        if let Ok(word) = text.parse::<Enumerant>() {
            return Ok(TpltParam::Enumerant(word));
        }
        match literal_of(text) {
            Some(literal) => Ok(TpltParam::Instance(literal)),
            None => Ok(TpltParam::Ty(plain_type(alloc, text)?)),
        }
    }
}
