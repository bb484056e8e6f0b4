//! Implicit conversions of values (WGSL, "Conversion Rank").

ghost use Rattle.std.specs.Prelude.{◌≡◌, Ok, Err, MatchResult};
ghost use Rattle.std.specs.Option.{option_copied};
ghost use Rattle.wgsl_shader_type.specs.Alike as types;
ghost use Rattle.wgsl_shader_type.specs.Literal.{zero_fault};
ghost use Rattle.wgsl_shader_type.specs.Rank.{converts};
ghost use Rattle.wgsl_shader_type.specs.declared.error.Error.TheVariants.{OutOfMemory};
ghost use Rattle.wgsl_scalar.specs.Conversions as scalars;
ghost use Rattle.wgsl_instance.specs.declared.tree.Instance.TheVariants as instance;
ghost use Rattle.wgsl_instance.specs.Answer.{Answers, then_with, collected};
ghost use Rattle.wgsl_instance.specs.Converted as spec;
ghost use Rattle.wgsl_instance.specs.Typed.{type_of};

use crate::tree::{ArrayInstance, Instance, VecInstance};
use std::alloc::Global;
use wgsl_base::{Items, Text};
use wgsl_scalar::{IntegerType, ScalarType, convert_scalar};
use wgsl_shader_type::{Error, LiteralInstance, Type};

/// The scalar type that has values here, if the type is one.
pub fn scalar_of(ty: &Type) -> Option<ScalarType>
    ensures { result ≡ spec.scalar_of ty.now }
{
    match ty {
        Type::Bool => Some(ScalarType::Bool),
        Type::AbstractInt => Some(ScalarType::Integer(IntegerType::AbstractInt)),
        Type::I32 => Some(ScalarType::Integer(IntegerType::I32)),
        Type::U32 => Some(ScalarType::Integer(IntegerType::U32)),
        _ => None,
    }
}

/// The type of a vector's components.
fn component_of(ty: &Type) -> Option<&Type>
    ensures { option_copied result ≡ spec.component_of ty.now }
{
    match ty {
        Type::Vec(_, component) => Some(component.get()),
        _ => None,
    }
}

/// The type of an array's elements.
fn element_of(ty: &Type) -> Option<&Type>
    ensures { option_copied result ≡ spec.element_of ty.now }
{
    match ty {
        Type::Array(element, _) => Some(element.get()),
        _ => None,
    }
}

/// The refusal of a type whose scalars have no values here.
pub fn unsupported<T: Drop>(alloc: Global, ty: &Type) -> Result<T, Error>
    ensures { Answers (Err (zero_fault ty.now)) result }
{
    match ty {
        Type::AbstractFloat => todo_type(alloc, "AbstractFloat"),
        Type::F32 => todo_type(alloc, "f32"),
        Type::F16 => todo_type(alloc, "f16"),
        _ => {
            let ty = ty.clone(alloc)?;
            Err(Error::NotScalar(ty))
        }
    }
}

/// The refusal of a type that isn't supported.
fn todo_type<T: Drop>(alloc: Global, text: &str) -> Result<T, Error>
    ensures { Answers (Err (Error.Todo text.now)) result }
{
    let name = Text::from_str(alloc, text)?;
    Err(Error::Todo(name))
}

fn convert_literal(alloc: Global, ty: &Type, value: LiteralInstance) -> Result<Instance, Error>
    ensures { Answers (then_with (spec.converted_literal ty.now value) (λ z. Ok (instance.Literal z))) result }
{
    match scalar_of(ty) {
        Some(scalar) => Ok(Instance::Literal(convert_scalar(scalar, value)?)),
        None => unsupported(alloc, ty),
    }
}

fn convert_components(
    alloc: Global,
    ty: ScalarType,
    components: &[LiteralInstance],
) -> Result<Items<LiteralInstance>, Error>
    ensures { Answers (collected (scalars.converted ty) components.now) result }
{
    let mut converted = Items::new(alloc);
    for component in components {
        converted.push(convert_scalar(ty, *component)?)?;
    }
    Ok(converted)
}

fn convert_vector(alloc: Global, ty: &Type, value: &VecInstance) -> Result<Instance, Error>
    ensures { Answers (spec.converted_vector ty.now value.now) result }
{
    match scalar_of(ty) {
        Some(scalar) => {
            let components = convert_components(alloc, scalar, value.components.as_slice())?;
            Ok(Instance::Vec(VecInstance {
                ty: scalar,
                components,
            }))
        }
        None => unsupported(alloc, ty),
    }
}

/// The refusal of types that don't convert.
fn mismatch(alloc: Global, from: &Instance, to: &Type) -> Result<Instance, Error>
    ensures { Answers (spec.mismatch from.now to.now) result }
{
    let from = from.ty(alloc)?;
    let to = to.clone(alloc)?;
    Err(Error::Conversion(from, to))
}

/// How the type of a value stands to the type that is asked for.
#[derive(Clone, Copy)]
struct Standing {
    is_same: bool,
    is_convertible: bool,
}

fn standing_of(alloc: Global, value: &Instance, ty: &Type) -> Result<Standing, Error>
    ensures { MatchResult result (λ s. (s.is_same ≡ types.same (type_of value.now) ty.now) × (s.is_convertible ≡ converts (type_of value.now) ty.now)) (λ error. error ≡ OutOfMemory) }
{
    let own = value.ty(alloc)?;
    let standing = Standing {
        is_same: own == *ty,
        is_convertible: own.is_convertible_to(ty),
    };
    drop(own);
    Ok(standing)
}

impl Instance {
    /// The value that it becomes where a value of this type is asked for. The first number that doesn't fit is
    /// `ConvOverflow`; a floating type is `Todo` with its text; types that don't convert are `Conversion`, with the value's
    /// type first.
    #[cycle(convert)]
    #[tactic(auto, using(crate::proofs::Conversions::converted_is))]
    pub fn convert_to(&self, alloc: Global, ty: &Type) -> Result<Instance, Error>
        ensures { Answers (spec.converted self.now ty.now) result }
    {
        let standing = standing_of(alloc, self, ty)?;
        if standing.is_same {
            return Ok(self.clone(alloc)?);
        }
        if standing.is_convertible {
            return convert_parts(alloc, self, ty);
        }
        mismatch(alloc, self, ty)
    }
}

#[cycle(convert)]
fn convert_parts(alloc: Global, value: &Instance, ty: &Type) -> Result<Instance, Error>
    ensures { Answers (spec.converted_parts value.now ty.now) result }
{
    match value {
        Instance::Literal(x) => convert_literal(alloc, ty, *x),
        Instance::Vec(x) => match component_of(ty) {
            Some(component) => convert_vector(alloc, component, x),
            None => mismatch(alloc, value, ty),
        },
        Instance::Array(x) => match element_of(ty) {
            Some(element) => convert_array(alloc, x, element),
            None => mismatch(alloc, value, ty),
        },
        Instance::Struct(_) => mismatch(alloc, value, ty),
        Instance::Ptr(_) => mismatch(alloc, value, ty),
        Instance::Ref(_) => mismatch(alloc, value, ty),
        Instance::Deferred(_) => mismatch(alloc, value, ty),
    }
}

#[cycle(convert)]
fn convert_array(alloc: Global, value: &ArrayInstance, element: &Type) -> Result<Instance, Error>
    ensures { Answers (spec.converted_array spec.converted element.now value.now) result }
{
    let components = convert_elements(alloc, value.components.as_slice(), element)?;
    Ok(Instance::Array(ArrayInstance {
        element: element.clone(alloc)?,
        components,
        runtime_sized: value.runtime_sized,
    }))
}

#[cycle(convert)]
fn convert_elements(
    alloc: Global,
    elements: &[Instance],
    ty: &Type,
) -> Result<Items<Instance>, Error>
    ensures { Answers (collected (λ x. spec.converted x ty.now) elements.now) result }
{
    let mut converted = Items::new(alloc);
    for element in elements {
        converted.push(element.convert_to(alloc, ty)?)?;
    }
    Ok(converted)
}
