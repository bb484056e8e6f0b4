//! Conversions, and what operands have to be.

use wgsl_base::Text;
use wgsl_eval_machine::{ConversionPlace, Fault, Machine, PairFault, Stop};
use wgsl_instance::{ArrayInstance, Instance};
use wgsl_shader_type::{Error, LiteralInstance, TpltParam, Type};

/// Whether a value is an array of a type. One without a length of its own is none.
fn is_array_of(array: &ArrayInstance, element: &Type, count: usize) -> bool {
    !array.runtime_sized && array.components.len() == count && array.element == *element
}

/// Whether a value is a scalar, an array or a structure of a type. Another value is not looked at.
pub(crate) fn is_of(value: &Instance, ty: &Type) -> bool {
    match (value, ty) {
        (Instance::Literal(LiteralInstance::U32(_)), Type::U32) => true,
        (Instance::Literal(LiteralInstance::I32(_)), Type::I32) => true,
        (Instance::Literal(LiteralInstance::Bool(_)), Type::Bool) => true,
        (Instance::Array(x), Type::Array(element, Some(count))) => {
            is_array_of(x, element.get(), *count)
        }
        (Instance::Struct(x), Type::Struct(y)) => x.ty == *y.get(),
        _ => false,
    }
}

/// Stops, since a type doesn't convert to another.
pub fn refuse_conversion<T>(
    machine: &mut Machine,
    place: ConversionPlace<'_>,
    from: Type,
    to: Type,
) -> Result<T, Stop> {
    match place {
        ConversionPlace::Initializer => machine.refuse_operation(Error::Conversion(from, to)),
        ConversionPlace::Parameter => machine.refuse_operation(Error::ParamType(to, from)),
        ConversionPlace::Return(name) => {
            let name = Text::from_str(machine.alloc, name)?;
            machine.refuse(Fault::ReturnType(name, from, to))
        }
    }
}

/// What a conversion answers, or its refusal.
fn converted(
    machine: &mut Machine,
    place: ConversionPlace<'_>,
    made: Result<Instance, Error>,
) -> Result<(), Stop> {
    match made {
        Ok(value) => machine.push_value(value),
        Err(Error::Conversion(from, to)) => refuse_conversion(machine, place, from, to),
        Err(error) => machine.refuse_operation(error),
    }
}

/// The uppermost operand becomes one of the uppermost type, which is taken off.
pub fn convert(machine: &mut Machine, place: ConversionPlace<'_>) -> Result<(), Stop> {
    let ty = machine.pop_type()?;
    let made = convert_top(machine, place, &ty);
    drop(ty);
    made
}

fn convert_top(machine: &mut Machine, place: ConversionPlace<'_>, ty: &Type) -> Result<(), Stop> {
    let value = machine.pop()?;
    if is_of(&value, ty) {
        return machine.push_value(value);
    }
    let made = value.convert_to(machine.alloc, ty);
    drop(value);
    converted(machine, place, made)
}

/// A value, converted to what a place stores.
pub fn convert_to_place(
    machine: &mut Machine,
    value: Instance,
    ty: &Type,
) -> Result<Instance, Stop> {
    if is_of(&value, ty) {
        return Ok(value);
    }
    let made = value.convert_to(machine.alloc, ty);
    drop(value);
    match made {
        Ok(value) => Ok(value),
        Err(Error::Conversion(from, to)) => machine.refuse_types(PairFault::AssignType, from, to),
        Err(error) => machine.refuse_operation(error),
    }
}

/// Stops, since a value is of another type than the one that is asked for.
fn refuse_wrong<T>(machine: &mut Machine, value: Instance, expected: Type) -> Result<T, Stop> {
    let ty = value.ty(machine.alloc);
    drop(value);
    let ty = ty?;
    machine.refuse_types(PairFault::WrongType, ty, expected)
}

/// The condition that the uppermost operand is, which is taken off.
pub fn truth(machine: &mut Machine) -> Result<bool, Stop> {
    match machine.pop()? {
        Instance::Literal(LiteralInstance::Bool(b)) => Ok(b),
        other => refuse_wrong(machine, other, Type::Bool),
    }
}

fn whole_number(value: &Instance) -> Option<i64> {
    match value {
        Instance::Literal(LiteralInstance::AbstractInt(z)) => Some(*z),
        Instance::Literal(LiteralInstance::I32(z)) => Some(i64::from(*z)),
        Instance::Literal(LiteralInstance::U32(n)) => Some(i64::from(*n)),
        _ => None,
    }
}

/// The uppermost operand is the number of an attribute.
pub fn number(machine: &mut Machine) -> Result<(), Stop> {
    let value = machine.pop()?;
    match whole_number(&value) {
        None => refuse_wrong(machine, value, Type::U32),
        Some(z) => {
            drop(value);
            if z < 0 {
                return machine.refuse(Fault::NegativeAttr(z));
            }
            match u32::try_from(z) {
                Ok(n) => Ok(machine.numbers.push(n)?),
                Err(_) => machine.refuse_operation(Error::ConvOverflow(
                    LiteralInstance::AbstractInt(z),
                    Type::U32,
                )),
            }
        }
    }
}

/// The uppermost operand is a template argument.
pub fn argument_of(machine: &mut Machine) -> Result<(), Stop> {
    match machine.pop()? {
        Instance::Literal(scalar) => Ok(machine.params.push(TpltParam::Instance(scalar))?),
        other => {
            let ty = other.ty(machine.alloc);
            drop(other);
            let ty = ty?;
            machine.refuse_operation(Error::NotScalar(ty))
        }
    }
}
