//! Writes.

use crate::converting::convert_to_place;
use wgsl_eval_machine::{Machine, Operand, PlainFault, Stop, TypeFault};
use wgsl_instance::{Instance, RefInstance};
use wgsl_instance_operators::call_binary_op;
use wgsl_shader_type::{Error, LiteralInstance, Type};
use wgsl_words::{BinaryOperator, ShaderStage};

/// The uppermost operand has to be a reference.
pub fn is_place(machine: &mut Machine) -> Result<(), Stop> {
    match machine.operands.top() {
        Some(Operand::Value(Instance::Ref(_))) => Ok(()),
        _ => machine.refuse_plain(PlainFault::NotRef),
    }
}

/// The reference that the uppermost operand is, which is taken off.
fn pop_place(machine: &mut Machine) -> Result<RefInstance, Stop> {
    match machine.pop()? {
        Instance::Ref(reference) => Ok(reference),
        other => {
            drop(other);
            machine.refuse_plain(PlainFault::NotRef)
        }
    }
}

/// Stops where a place holds an array without a length.
fn check_sized(machine: &mut Machine, place: &RefInstance) -> Result<(), Stop> {
    if matches!(&place.ty, Type::Array(_, None)) {
        let ty = place.ty.clone(machine.alloc)?;
        return machine.refuse_operation(Error::NotConstructible(ty));
    }
    Ok(())
}

fn write(machine: &mut Machine, place: &RefInstance, value: Instance) -> Result<(), Stop> {
    let written = machine.memory.write(machine.alloc, place, value);
    machine.answered(written)
}

fn assign_at(machine: &mut Machine, place: &RefInstance, value: Instance) -> Result<(), Stop> {
    match check_sized(machine, place) {
        Ok(()) => {
            let value = convert_to_place(machine, value, &place.ty)?;
            write(machine, place, value)
        }
        Err(stop) => {
            drop(value);
            Err(stop)
        }
    }
}

/// The uppermost operand is written at the place below it.
pub fn assign(machine: &mut Machine) -> Result<(), Stop> {
    let value = machine.pop()?;
    match pop_place(machine) {
        Ok(place) => {
            let written = assign_at(machine, &place, value);
            drop(place);
            written
        }
        Err(stop) => {
            drop(value);
            Err(stop)
        }
    }
}

/// Stops where a value has another type than a place.
fn check_same(machine: &mut Machine, place: &RefInstance, value: &Instance) -> Result<(), Stop> {
    let ty = value.ty(machine.alloc)?;
    if ty == place.ty {
        drop(ty);
        return Ok(());
    }
    match place.ty.clone(machine.alloc) {
        Ok(stored) => machine.refuse_operation(Error::WriteRefType(ty, stored)),
        Err(error) => {
            drop(ty);
            Err(Stop::from(error))
        }
    }
}

/// What a place holds. An array without a length is not read: it is refused once the right side is there.
fn held(machine: &mut Machine, place: &RefInstance) -> Result<Instance, Stop> {
    if matches!(&place.ty, Type::Array(_, None)) {
        return Ok(Instance::Literal(LiteralInstance::Bool(false)));
    }
    machine.read(place)
}

/// What the place that the uppermost operand is holds becomes an operand above it.
pub fn read_place(machine: &mut Machine) -> Result<(), Stop> {
    let place = pop_place(machine)?;
    match held(machine, &place) {
        Ok(value) => {
            machine.push_value(Instance::Ref(place))?;
            machine.push_value(value)
        }
        Err(stop) => {
            drop(place);
            Err(stop)
        }
    }
}

/// What an operator makes of two values, for a place.
fn combined(
    machine: &mut Machine,
    operator: BinaryOperator,
    place: &RefInstance,
    left: &Instance,
    right: &Instance,
) -> Result<Instance, Stop> {
    check_sized(machine, place)?;
    let stage: ShaderStage = machine.stage;
    let value = call_binary_op(machine.alloc, operator, left, right, stage);
    machine.answered(value)
}

fn write_combined(
    machine: &mut Machine,
    operator: BinaryOperator,
    left: &Instance,
    right: &Instance,
) -> Result<(), Stop> {
    let place = pop_place(machine)?;
    let written = match combined(machine, operator, &place, left, right) {
        Ok(value) => write_same(machine, &place, value),
        Err(stop) => Err(stop),
    };
    drop(place);
    written
}

fn write_same(machine: &mut Machine, place: &RefInstance, value: Instance) -> Result<(), Stop> {
    match check_same(machine, place, &value) {
        Ok(()) => write(machine, place, value),
        Err(stop) => {
            drop(value);
            Err(stop)
        }
    }
}

fn with_left(
    machine: &mut Machine,
    operator: BinaryOperator,
    right: &Instance,
) -> Result<(), Stop> {
    let left = machine.pop()?;
    let written = write_combined(machine, operator, &left, right);
    drop(left);
    written
}

/// What an operator makes of the two uppermost operands is written at the place below them, all of which are taken off.
pub fn compound(machine: &mut Machine, operator: BinaryOperator) -> Result<(), Stop> {
    let right = machine.pop()?;
    let written = with_left(machine, operator, &right);
    drop(right);
    written
}

/// A number one larger, or one smaller, and whether that fits.
fn next(value: LiteralInstance, is_increment: bool) -> Option<(LiteralInstance, bool)> {
    match (value, is_increment) {
        (LiteralInstance::I32(z), true) => Some((
            LiteralInstance::I32(z.wrapping_add(1)),
            z < i32::MAX,
        )),
        (LiteralInstance::I32(z), false) => Some((
            LiteralInstance::I32(z.wrapping_sub(1)),
            z > i32::MIN,
        )),
        (LiteralInstance::U32(n), true) => Some((
            LiteralInstance::U32(n.wrapping_add(1)),
            n < u32::MAX,
        )),
        (LiteralInstance::U32(n), false) => Some((LiteralInstance::U32(n.wrapping_sub(1)), n > 0)),
        _ => None,
    }
}

fn bumped(value: &Instance, is_increment: bool) -> Option<(LiteralInstance, bool)> {
    match value {
        Instance::Literal(scalar) => next(*scalar, is_increment),
        _ => None,
    }
}

fn refuse_bump<T>(machine: &mut Machine, ty: Type, is_increment: bool) -> Result<T, Stop> {
    let kind = if is_increment {
        TypeFault::IncrType
    } else {
        TypeFault::DecrType
    };
    machine.refuse_type(kind, ty)
}

fn bump_at(machine: &mut Machine, place: &RefInstance, is_increment: bool) -> Result<(), Stop> {
    if !place.access.is_read() || !place.access.is_write() {
        return machine.refuse_operation(Error::NotReadWrite);
    }
    let value = machine.read(place)?;
    let next = bumped(&value, is_increment);
    drop(value);
    match next {
        None => {
            let ty = place.ty.clone(machine.alloc)?;
            refuse_bump(machine, ty, is_increment)
        }
        Some((next, fits)) => {
            if !fits && machine.stage != ShaderStage::Exec {
                return machine.refuse_plain(if is_increment {
                    PlainFault::IncrOverflow
                } else {
                    PlainFault::DecrOverflow
                });
            }
            write(machine, place, Instance::Literal(next))
        }
    }
}

/// `++` or `--`, of the place that the uppermost operand is.
pub fn bump(machine: &mut Machine, is_increment: bool) -> Result<(), Stop> {
    let place = pop_place(machine)?;
    let written = bump_at(machine, &place, is_increment);
    drop(place);
    written
}
