//! Parts of operands.

use std::alloc::Global;
use wgsl_base::Items;
use wgsl_eval_machine::{Machine, NameFault, Operand, Root, Stop, TypeFault, is_small};
use wgsl_instance::selector::{
    in_range, is_rgba, is_xyzw, letter_index, member_position, no_component,
};
use wgsl_instance::{ArrayInstance, Instance, RefInstance, Step, StructInstance};
use wgsl_shader_type::{Error, LiteralInstance, Type};

/// Whether a name is of 1 to 4 letters, all of `xyzw` or all of `rgba`.
pub fn is_swizzle(name: &str) -> bool {
    let letters = name.as_bytes();
    let are_xyzw = letters.iter().all(|letter| is_xyzw(*letter));
    let are_rgba = letters.iter().all(|letter| is_rgba(*letter));
    !letters.is_empty() && letters.len() <= 4 && (are_xyzw || are_rgba)
}

/// A part of a known value: small enough to be copied, or a step on the way to it.
#[derive(Drop)]
enum Selected {
    Value(Instance),
    Deeper(Step),
}

fn chosen(alloc: Global, part: &Instance, step: Step) -> Result<Selected, Error> {
    if is_small(part) {
        Ok(Selected::Value(part.clone(alloc)?))
    } else {
        Ok(Selected::Deeper(step))
    }
}

fn element_of(alloc: Global, array: &ArrayInstance, index: i64) -> Result<Selected, Error> {
    match in_range(index, array.components.len()) {
        Some(i) => match array.components.get(i) {
            Some(element) => chosen(alloc, element, Step::Element(i)),
            None => Err(Error::OutOfMemory),
        },
        None => Err(Error::OutOfBounds(index, array.ty(alloc)?, array.components.len())),
    }
}

fn member_of(
    alloc: Global,
    value: &StructInstance,
    whole: &Instance,
    name: &str,
) -> Result<Selected, Error> {
    match member_position(value.ty.members.as_slice(), name) {
        Some(i) => match value.members.get(i) {
            Some(member) => chosen(alloc, member, Step::Member(i)),
            None => Err(Error::OutOfMemory),
        },
        None => Ok(Selected::Value(whole.member(alloc, name)?)),
    }
}

fn known_element(alloc: Global, part: Option<&Instance>, index: i64) -> Result<Selected, Error> {
    match part {
        Some(Instance::Array(array)) => element_of(alloc, array, index),
        Some(other) => Ok(Selected::Value(other.index(alloc, index)?)),
        None => Err(Error::OutOfMemory),
    }
}

fn known_member(alloc: Global, part: Option<&Instance>, name: &str) -> Result<Selected, Error> {
    match part {
        Some(Instance::Struct(value)) => match part {
            Some(whole) => member_of(alloc, value, whole, name),
            None => Err(Error::OutOfMemory),
        },
        Some(other) => Ok(Selected::Value(other.member(alloc, name)?)),
        None => Err(Error::OutOfMemory),
    }
}

/// A part of a known value is an operand.
fn push_selected(
    machine: &mut Machine,
    root: Root,
    path: Items<Step>,
    selected: Result<Selected, Error>,
) -> Result<(), Stop> {
    match selected {
        Ok(Selected::Value(value)) => {
            drop(path);
            machine.push_value(value)
        }
        Ok(Selected::Deeper(step)) => {
            let mut path = path;
            path.push(step)?;
            machine.push(Operand::Part(root, path))
        }
        Err(error) => {
            drop(path);
            machine.refuse_operation(error)
        }
    }
}

/// The reference that an operand of `.` or `[]` is, where it is one or a pointer.
fn reference_of(operand: &Instance) -> Option<&RefInstance> {
    match operand {
        Instance::Ref(reference) => Some(reference),
        Instance::Ptr(pointer) => Some(&pointer.reference),
        _ => None,
    }
}

fn as_index(value: &Instance) -> Option<i64> {
    match value {
        Instance::Literal(LiteralInstance::AbstractInt(z)) => Some(*z),
        Instance::Literal(LiteralInstance::I32(z)) => Some(i64::from(*z)),
        Instance::Literal(LiteralInstance::U32(n)) => Some(i64::from(*n)),
        _ => None,
    }
}

/// The index that the uppermost operand is.
fn pop_index(machine: &mut Machine) -> Result<i64, Stop> {
    let operand = machine.pop()?;
    match as_index(&operand) {
        Some(index) => {
            drop(operand);
            Ok(index)
        }
        None => {
            let ty = operand.ty(machine.alloc);
            drop(operand);
            let ty = ty?;
            machine.refuse_type(TypeFault::Index, ty)
        }
    }
}

fn indexed(machine: &Machine, base: &Instance, index: i64) -> Result<Instance, Error> {
    match reference_of(base) {
        Some(reference) => {
            let part = machine.memory.view_index(machine.alloc, reference, index)?;
            Ok(Instance::Ref(part))
        }
        None => base.index(machine.alloc, index),
    }
}

/// The part of the operand below the uppermost at the uppermost.
pub fn index(machine: &mut Machine) -> Result<(), Stop> {
    let index = pop_index(machine)?;
    match machine.pop_operand() {
        Some(Operand::Part(root, path)) => {
            let found = known_element(machine.alloc, machine.part(root, path.as_slice()), index);
            push_selected(machine, root, path, found)
        }
        Some(Operand::Value(base)) => {
            let part = indexed(machine, &base, index);
            drop(base);
            let part = machine.answered(part)?;
            machine.push_value(part)
        }
        _ => Err(Stop::OutOfMemory),
    }
}

/// The first place past the end that letters name, in a vector of so many components.
fn past_end(count: u8, name: &str) -> Option<i64> {
    for letter in name.as_bytes() {
        let place = letter_index(*letter);
        if place >= usize::from(count) {
            return Some(i64::try_from(place).unwrap_or(i64::MAX));
        }
    }
    None
}

/// The components that letters name of the vector that a reference refers to: a reference for one letter, else loaded.
fn lettered(
    machine: &mut Machine,
    reference: &RefInstance,
    count: u8,
    name: &str,
) -> Result<Instance, Stop> {
    if let Some(place) = past_end(count, name) {
        let ty = reference.ty.clone(machine.alloc)?;
        return machine.refuse_operation(Error::OutOfBounds(place, ty, usize::from(count)));
    }
    if name.len() == 1 {
        let part = machine.memory.view_member(machine.alloc, reference, name);
        return Ok(Instance::Ref(machine.answered(part)?));
    }
    let whole = machine.read(reference)?;
    let part = whole.member(machine.alloc, name);
    drop(whole);
    machine.answered(part)
}

fn member_of_reference(
    machine: &mut Machine,
    reference: &RefInstance,
    name: &str,
) -> Result<Instance, Stop> {
    match &reference.ty {
        Type::Vec(count, _) => {
            if is_swizzle(name) {
                lettered(machine, reference, *count, name)
            } else {
                machine.refuse_name(NameFault::Swizzle, name)
            }
        }
        Type::Struct(_) => {
            let part = machine.memory.view_member(machine.alloc, reference, name);
            Ok(Instance::Ref(machine.answered(part)?))
        }
        ty => {
            let part = no_component(machine.alloc, ty, name);
            machine.answered(part)
        }
    }
}

fn member_of_value(machine: &mut Machine, base: &Instance, name: &str) -> Result<Instance, Stop> {
    if matches!(base, Instance::Vec(_)) && !is_swizzle(name) {
        return machine.refuse_name(NameFault::Swizzle, name);
    }
    match reference_of(base) {
        Some(reference) => member_of_reference(machine, reference, name),
        None => {
            let part = base.member(machine.alloc, name);
            machine.answered(part)
        }
    }
}

/// The part of the uppermost operand of a name.
pub fn member(machine: &mut Machine, name: &str) -> Result<(), Stop> {
    match machine.pop_operand() {
        Some(Operand::Part(root, path)) => {
            let found = known_member(machine.alloc, machine.part(root, path.as_slice()), name);
            push_selected(machine, root, path, found)
        }
        Some(Operand::Value(base)) => {
            let part = member_of_value(machine, &base, name);
            drop(base);
            machine.push_value(part?)
        }
        _ => Err(Stop::OutOfMemory),
    }
}
