//! The value of a type that is built of arguments (WGSL, "Value Constructor Built-in Functions").

ghost use Rattle.std.specs.Prelude.{◌≡◌, ◌++◌, Err, replicate, IfOk, OnOk};
ghost use Rattle.wgsl_instance.specs.Answer.{Answers, collected};
ghost use Rattle.wgsl_instance.specs.Converted.{converted};
ghost use Rattle.wgsl_scalar.specs.Conversions as scalars;
ghost use Rattle.wgsl_instance_operators.specs.Built as spec;

use std::alloc::{AllocError, Global};
use wgsl_base::Items;
use wgsl_instance::{ArrayInstance, Instance, VecInstance, scalar_of, unsupported};
use wgsl_scalar::{ScalarType, construct_scalar};
use wgsl_shader_type::{Error, LiteralInstance, Type};

/// The refusal of a value that is no scalar.
fn no_scalar<T: Drop>(alloc: Global, value: &Instance) -> Result<T, Error>
    ensures { Answers (Err (spec.no_scalar value.now)) result }
{
    let ty = value.ty(alloc)?;
    Err(Error::NotScalar(ty))
}

/// The scalar that a value is.
fn literal_of(alloc: Global, value: &Instance) -> Result<LiteralInstance, Error>
    ensures { Answers (spec.literal_of value.now) result }
{
    match value {
        Instance::Literal(scalar) => Ok(*scalar),
        _ => no_scalar(alloc, value),
    }
}

/// What a scalar's constructor makes of a scalar.
fn cast(alloc: Global, ty: &Type, value: LiteralInstance) -> Result<LiteralInstance, Error>
    ensures { Answers (spec.cast ty.now value) result }
{
    match scalar_of(ty) {
        Some(scalar) => construct_scalar(scalar, value),
        None => unsupported(alloc, ty),
    }
}

fn build_scalar(alloc: Global, ty: &Type, value: &Instance) -> Result<Instance, Error>
    ensures { Answers (spec.built_scalar ty.now value.now) result }
{
    let scalar = literal_of(alloc, value)?;
    Ok(Instance::Literal(cast(alloc, ty, scalar)?))
}

/// Adds scalars at the end of a list.
fn append(parts: &mut Items<LiteralInstance>, others: &[LiteralInstance]) -> Result<(), AllocError>
    ensures { OnOk result (parts.new ≡ parts.old ++ others.now) }
{
    for other in others {
        parts.push(*other)?;
    }
    Ok(())
}

/// The components that an argument brings to a vector: a vector's, or itself.
fn parts_of(alloc: Global, arg: &Instance) -> Result<Items<LiteralInstance>, Error>
    ensures { Answers (spec.parts_of arg.now) result }
{
    let mut parts = Items::new(alloc);
    match arg {
        Instance::Literal(scalar) => parts.push(*scalar)?,
        Instance::Vec(vector) => append(&mut parts, vector.components.as_slice())?,
        _ => return no_scalar(alloc, arg),
    }
    Ok(parts)
}

/// The components that arguments bring to a vector, in order.
fn all_parts(alloc: Global, args: &[Instance]) -> Result<Items<LiteralInstance>, Error>
    ensures { Answers (spec.all_parts args.now) result }
{
    let mut parts = Items::new(alloc);
    for arg in args {
        let brought = parts_of(alloc, arg)?;
        append(&mut parts, brought.as_slice())?;
    }
    Ok(parts)
}

fn cast_all(
    alloc: Global,
    ty: ScalarType,
    parts: &[LiteralInstance],
) -> Result<Items<LiteralInstance>, Error>
    ensures { Answers (collected (scalars.constructed ty) parts.now) result }
{
    let mut components = Items::new(alloc);
    for part in parts {
        components.push(construct_scalar(ty, *part)?)?;
    }
    Ok(components)
}

/// So many times one scalar.
fn replicated(
    alloc: Global,
    count: u8,
    scalar: LiteralInstance,
) -> Result<Items<LiteralInstance>, AllocError>
    ensures { IfOk result (λ made. made ≡ replicate count scalar) }
{
    let mut components = Items::new(alloc);
    for _ in 0..count {
        components.push(scalar)?;
    }
    Ok(components)
}

/// One component stands for all.
fn spread(
    alloc: Global,
    count: u8,
    components: Items<LiteralInstance>,
) -> Result<Items<LiteralInstance>, AllocError>
    ensures { IfOk result (λ made. made ≡ spec.spread count components) }
{
    match components.as_slice() {
        [scalar] => replicated(alloc, count, *scalar),
        _ => Ok(components),
    }
}

fn vector_of(
    alloc: Global,
    count: u8,
    ty: ScalarType,
    parts: &[LiteralInstance],
) -> Result<Instance, Error>
    ensures { Answers (spec.vector_of_parts count ty parts.now) result }
{
    let components = cast_all(alloc, ty, parts)?;
    let components = spread(alloc, count, components)?;
    Ok(Instance::Vec(VecInstance { ty, components }))
}

fn build_vector(
    alloc: Global,
    count: u8,
    component: &Type,
    args: &[Instance],
) -> Result<Instance, Error>
    ensures { Answers (spec.built_vector count component.now args.now) result }
{
    let parts = all_parts(alloc, args)?;
    match scalar_of(component) {
        Some(scalar) => vector_of(alloc, count, scalar, parts.as_slice()),
        None => unsupported(alloc, component),
    }
}

fn convert_all(alloc: Global, ty: &Type, args: &[Instance]) -> Result<Items<Instance>, Error>
    ensures { Answers (collected (λ x. converted x ty.now) args.now) result }
{
    let mut elements = Items::new(alloc);
    for arg in args {
        elements.push(arg.convert_to(alloc, ty)?)?;
    }
    Ok(elements)
}

fn build_array(alloc: Global, element: &Type, args: &[Instance]) -> Result<Instance, Error>
    ensures { Answers (spec.built_array element.now args.now) result }
{
    let components = convert_all(alloc, element, args)?;
    Ok(Instance::Array(ArrayInstance {
        element: element.clone(alloc)?,
        components,
        runtime_sized: false,
    }))
}

/// The value of a type that is built of arguments: its zero value, where there are none.
pub(crate) fn build(alloc: Global, ty: &Type, args: &[Instance]) -> Result<Instance, Error>
    ensures { Answers (spec.built ty.now args.now) result }
{
    let Some(first) = args.first() else {
        return Instance::zero_value(alloc, ty);
    };
    match ty {
        Type::Vec(count, component) => build_vector(alloc, *count, component.get(), args),
        Type::Array(element, _) => build_array(alloc, element.get(), args),
        _ => build_scalar(alloc, ty, first),
    }
}
