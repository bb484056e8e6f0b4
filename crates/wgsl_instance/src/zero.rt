//! Zero values (WGSL, "Zero Value Built-in Function").

ghost use Rattle.std.specs.Prelude.{◌≡◌, IfOk, None, Err, replicate};
ghost use Rattle.wgsl_shader_type.specs.declared.tree.ShaderType.TheVariants as type;
ghost use Rattle.wgsl_instance.specs.Answer.{Answers, then_with, collected};
ghost use Rattle.wgsl_instance.specs.Zero as spec;
ghost use Rattle.wgsl_instance.specs.Zero.{zero_member};

use crate::tree::{ArrayInstance, Instance, StructInstance, VecInstance};
use std::alloc::{AllocError, Global};
use wgsl_base::{Boxed, Items};
use wgsl_scalar::type_of;
use wgsl_shader_type::{Error, LiteralInstance, StructMemberType, StructType, Type};

impl Instance {
    /// The zero value of a type. A float is `Todo` with its type's text. An array without a count, a pointer and a
    /// reference are `NotConstructible`. In a struct the first fault in the order of members is the fault.
    #[cycle(zero)]
    #[tactic(auto, using(crate::proofs::Zeros::zero_values))]
    pub fn zero_value(alloc: Global, ty: &Type) -> Result<Instance, Error>
        ensures { Answers (spec.zero_value ty.now) result }
    {
        match ty {
            Type::Bool
            | Type::AbstractInt
            | Type::AbstractFloat
            | Type::I32
            | Type::U32
            | Type::F32
            | Type::F16 => zero_scalar(alloc, ty),
            Type::Struct(x) => zero_struct(alloc, x.get()),
            Type::Array(element, count) => zero_array(alloc, element.get(), *count),
            Type::Vec(count, component) => zero_vector(alloc, *count, component.get()),
            Type::Ptr(_, _, _) => not_constructible(alloc, ty),
            Type::Ref(_, _, _) => not_constructible(alloc, ty),
        }
    }
}

/// The refusal of a type that has no zero value.
fn not_constructible(alloc: Global, ty: &Type) -> Result<Instance, Error>
    ensures { Answers (Err (Error.NotConstructible ty.now)) result }
{
    let ty = ty.clone(alloc)?;
    Err(Error::NotConstructible(ty))
}

fn zero_scalar(alloc: Global, ty: &Type) -> Result<Instance, Error>
    ensures { Answers (spec.zero_scalar ty.now) result }
{
    let zero = LiteralInstance::zero_value(alloc, ty)?;
    Ok(Instance::Literal(zero))
}

/// So many components, each of them this scalar.
pub(crate) fn splat(
    alloc: Global,
    count: u8,
    value: LiteralInstance,
) -> Result<Instance, AllocError>
    ensures { IfOk result (λ made. made ≡ spec.splat count value) }
{
    let mut components = Items::new(alloc);
    for _ in 0..count {
        components.push(value)?;
    }
    Ok(Instance::Vec(VecInstance {
        ty: type_of(value),
        components,
    }))
}

fn zero_vector(alloc: Global, count: u8, component: &Type) -> Result<Instance, Error>
    ensures { Answers (spec.zero_vector count component.now) result }
{
    if count < 2 || count > 4 {
        let component = component.clone(alloc)?;
        return Err(Error::NotConstructible(Type::Vec(count, Boxed::new(alloc, component)?)));
    }
    let zero = LiteralInstance::zero_value(alloc, component)?;
    Ok(splat(alloc, count, zero)?)
}

/// So many copies of a value.
fn copies(alloc: Global, value: &Instance, count: usize) -> Result<Items<Instance>, AllocError>
    ensures { IfOk result (λ made. made ≡ replicate count value.now) }
{
    let mut made = Items::new(alloc);
    for _ in 0..count {
        made.push(value.clone(alloc)?)?;
    }
    Ok(made)
}

/// An array that is filled with one value.
fn filled_array(
    alloc: Global,
    element: &Type,
    count: usize,
    value: &Instance,
) -> Result<Instance, AllocError>
    ensures { IfOk result (λ made. made ≡ spec.filled_array element.now count value.now) }
{
    Ok(Instance::Array(ArrayInstance {
        element: element.clone(alloc)?,
        components: copies(alloc, value, count)?,
        runtime_sized: false,
    }))
}

/// An array without a count.
fn unsized_array(alloc: Global, element: &Type) -> Result<Type, AllocError>
    ensures { IfOk result (λ made. made ≡ type.Array element.now None) }
{
    let element = element.clone(alloc)?;
    Ok(Type::Array(Boxed::new(alloc, element)?, None))
}

#[cycle(zero)]
fn zero_array(alloc: Global, element: &Type, count: Option<usize>) -> Result<Instance, Error>
    ensures { Answers (spec.zero_array element.now count (spec.zero_value element.now)) result }
{
    let Some(count) = count else {
        return Err(Error::NotConstructible(unsized_array(alloc, element)?));
    };
    let zero = Instance::zero_value(alloc, element)?;
    let filled = filled_array(alloc, element, count, &zero);
    drop(zero);
    Ok(filled?)
}

#[cycle(zero)]
fn zero_struct(alloc: Global, ty: &StructType) -> Result<Instance, Error>
    ensures { Answers (then_with (collected zero_member ty.now.members) (spec.struct_of ty.now)) result }
{
    let members = zero_members(alloc, ty.members.as_slice())?;
    Ok(Instance::Struct(StructInstance {
        ty: ty.clone(alloc)?,
        members,
    }))
}

#[cycle(zero)]
fn zero_members(alloc: Global, members: &[StructMemberType]) -> Result<Items<Instance>, Error>
    ensures { Answers (collected zero_member members.now) result }
{
    let mut zeros = Items::new(alloc);
    for member in members {
        zeros.push(Instance::zero_value(alloc, &member.ty)?)?;
    }
    Ok(zeros)
}
