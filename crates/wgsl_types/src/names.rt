//! The built-in names of types.

ghost use Rattle.std.specs.Prelude.{◌≡◌, Some, None, codes};
ghost use Rattle.std.specs.Option.{option_copied};
ghost use Rattle.wgsl_types.specs.Names as spec;

use crate::template::{ArrayTemplate, PtrTemplate, VecTemplate};
use std::alloc::Global;
use wgsl_base::{Boxed, Text};
use wgsl_shader_type::{Error, TpltParam, Type};
use wgsl_words::{is_known, other_types};

/// What a built-in name of a type stands for.
#[derive(Debug, Drop, PartialEq)]
pub enum BuiltinName {
    /// A scalar type.
    Scalar(Type),
    /// A vector of so many components, with their type where the name gives it.
    Vector(u8, Option<Type>),
    /// `array`
    Array,
    /// `ptr`
    Pointer,
    /// A built-in name that is not supported here.
    LeftOut,
    /// A name that is not built in.
    Unknown,
}

/// What a name stands for, if it is a built-in one.
pub fn builtin_name(text: &str) -> BuiltinName
    ensures { result ≡ spec.builtin_name text.now }
{
    match text {
        "bool" => BuiltinName::Scalar(Type::Bool),
        "i32" => BuiltinName::Scalar(Type::I32),
        "u32" => BuiltinName::Scalar(Type::U32),
        "vec2" => BuiltinName::Vector(2, None),
        "vec3" => BuiltinName::Vector(3, None),
        "vec4" => BuiltinName::Vector(4, None),
        "vec2i" => BuiltinName::Vector(2, Some(Type::I32)),
        "vec3i" => BuiltinName::Vector(3, Some(Type::I32)),
        "vec4i" => BuiltinName::Vector(4, Some(Type::I32)),
        "vec2u" => BuiltinName::Vector(2, Some(Type::U32)),
        "vec3u" => BuiltinName::Vector(3, Some(Type::U32)),
        "vec4u" => BuiltinName::Vector(4, Some(Type::U32)),
        "array" => BuiltinName::Array,
        "ptr" => BuiltinName::Pointer,
        _ => {
            if is_known(text, other_types()) {
                BuiltinName::LeftOut
            } else {
                BuiltinName::Unknown
            }
        }
    }
}

/// Whether a name is that of a constructor that is typed here: of a scalar, a vector or an array.
pub fn is_ctor(name: &str) -> bool
    ensures { result ≡ spec.has_constructor (spec.builtin_name name.now) }
{
    matches!(
        builtin_name(name),
        BuiltinName::Scalar(_) | BuiltinName::Vector(_, _) | BuiltinName::Array
    )
}

/// The type of a name without a template.
fn plain_type(alloc: Global, text: &str, builtin: BuiltinName) -> Result<Type, Error>
    ensures { spec.AnswersType text.now builtin None result }
{
    match builtin {
        BuiltinName::Scalar(scalar) => Ok(scalar),
        BuiltinName::Vector(n, Some(component)) => {
            let component = Boxed::new(alloc, component)?;
            Ok(Type::Vec(n, component))
        }
        BuiltinName::Vector(_, None) => Err(Error::MissingTemplate("vec")),
        BuiltinName::Array => Err(Error::MissingTemplate("array")),
        BuiltinName::Pointer => Err(Error::MissingTemplate("ptr")),
        BuiltinName::LeftOut => {
            let name = Text::from_str(alloc, text)?;
            Err(Error::Todo(name))
        }
        BuiltinName::Unknown => {
            let name = Text::from_str(alloc, text)?;
            Err(Error::UnknownType(name))
        }
    }
}

/// The type of a vector's name with a template.
fn vector_type(alloc: Global, n: u8, params: &[TpltParam]) -> Result<Type, Error>
    ensures { spec.AnswersType (codes "vec") (BuiltinName.Vector n None) (Some params.now) result }
{
    let read = VecTemplate::parse(alloc, params)?;
    let made = read.ty(alloc, n);
    drop(read);
    Ok(made?)
}

/// The type of `array` with a template.
fn array_type(alloc: Global, params: &[TpltParam]) -> Result<Type, Error>
    ensures { spec.AnswersType (codes "array") BuiltinName.Array (Some params.now) result }
{
    let read = ArrayTemplate::parse(alloc, params)?;
    let made = read.ty(alloc);
    drop(read);
    Ok(made?)
}

/// The type of `ptr` with a template.
fn pointer_type(alloc: Global, params: &[TpltParam]) -> Result<Type, Error>
    ensures { spec.AnswersType (codes "ptr") BuiltinName.Pointer (Some params.now) result }
{
    let read = PtrTemplate::parse(alloc, params)?;
    let made = read.ty(alloc);
    drop(read);
    Ok(made?)
}

/// The type of a name with a template.
fn templated_type(
    alloc: Global,
    text: &str,
    builtin: &BuiltinName,
    params: &[TpltParam],
) -> Result<Type, Error>
    ensures { spec.AnswersType text.now builtin.now (Some params.now) result }
{
    match builtin {
        BuiltinName::Scalar(_) | BuiltinName::Vector(_, Some(_)) => {
            let name = Text::from_str(alloc, text)?;
            Err(Error::UnexpectedTemplate(name))
        }
        BuiltinName::Vector(n, None) => vector_type(alloc, *n, params),
        BuiltinName::Array => array_type(alloc, params),
        BuiltinName::Pointer => pointer_type(alloc, params),
        BuiltinName::LeftOut => {
            let name = Text::from_str(alloc, text)?;
            Err(Error::Todo(name))
        }
        BuiltinName::Unknown => {
            let name = Text::from_str(alloc, text)?;
            Err(Error::UnknownType(name))
        }
    }
}

/// The built-in type of a name and its template. A template that is too much is `UnexpectedTemplate`, one that is missing `MissingTemplate`, one that can't be read `TemplateArgs` (a count of 0 is `Todo`); a built-in name that isn't supported is `Todo`, any other `UnknownType`.
pub fn builtin_type(
    alloc: Global,
    name: &str,
    template: Option<&[TpltParam]>,
) -> Result<Type, Error>
    ensures { spec.AnswersType name.now (spec.builtin_name name.now) (option_copied template.entry) result }
{
    match template {
        None => plain_type(alloc, name, builtin_name(name)),
        Some(params) => {
            let builtin = builtin_name(name);
            let made = templated_type(alloc, name, &builtin, params);
            drop(builtin);
            made
        }
    }
}
