//! The constructor of a struct (WGSL, "Structure Types", "Value Constructor Built-in Functions").

ghost use Rattle.std.specs.Prelude.{[]};
ghost use Rattle.wgsl_instance.specs.Answer.{Answers};
ghost use Rattle.wgsl_instance_operators.specs.Built as spec;

use crate::constructors::call::types_of;
use std::alloc::Global;
use wgsl_base::{Boxed, Items};
use wgsl_instance::{Instance, StructInstance};
use wgsl_shader_type::{Error, StructMemberType, StructType, Type};
use wgsl_types::typecheck_struct_ctor;

/// Each argument, converted to its member's type.
fn convert_members(
    alloc: Global,
    members: &[StructMemberType],
    args: &[Instance],
) -> Result<Items<Instance>, Error>
    ensures { Answers (spec.converted_members members.now args.now) result }
{
    let mut values = Items::new(alloc);
    let mut rest = args;
    for member in members {
        match rest.split_first() {
            Some((arg, others)) => {
                values.push(arg.convert_to(alloc, &member.ty)?)?;
                rest = others;
            }
            None => return Ok(values),
        }
    }
    Ok(values)
}

/// The zero value of a struct.
fn zero_struct(alloc: Global, ty: &StructType) -> Result<Instance, Error>
    ensures { Answers (spec.built_struct ty.now []) result }
{
    let ty = Type::Struct(Boxed::new(alloc, ty.clone(alloc)?)?);
    let zero = Instance::zero_value(alloc, &ty);
    drop(ty);
    zero
}

fn build_struct(alloc: Global, ty: &StructType, args: &[Instance]) -> Result<Instance, Error>
    ensures { Answers (spec.built_struct ty.now args.now) result }
{
    if args.is_empty() {
        return zero_struct(alloc, ty);
    }
    let members = convert_members(alloc, ty.members.as_slice(), args)?;
    Ok(Instance::Struct(StructInstance {
        ty: ty.clone(alloc)?,
        members,
    }))
}

/// A struct's value: of nothing its zero value, else of a value for each member, converted to the member's type. Another number of
/// values is `ParamCount`, the first that doesn't convert `ParamType`; a number that doesn't fit is `ConvOverflow`.
pub fn struct_ctor(alloc: Global, ty: &StructType, args: &[Instance]) -> Result<Instance, Error>
    ensures { spec.ConstructsStruct ty.now args.now result }
{
    let types = types_of(alloc, args)?;
    let checked = typecheck_struct_ctor(alloc, ty, types.as_slice());
    drop(types);
    checked?;
    build_struct(alloc, ty, args)
}
