//! Values that are built of others.

use crate::converting::is_of;
use wgsl_base::{Boxed, Items};
use wgsl_eval_machine::{Machine, NameFault, Stop, is_small};
use wgsl_instance::{ArrayInstance, Instance, StructInstance};
use wgsl_instance_operators::{call_ctor, struct_ctor};
use wgsl_shader_type::{Error, LiteralInstance, StructMemberType, StructType, TpltParam, Type};
use wgsl_types::{is_ctor, type_ctor};
use wgsl_words::{is_known, other_types};

/// The zero value of a type.
pub fn zero(machine: &mut Machine, ty: &Type) -> Result<Instance, Stop> {
    machine.check_value(ty)?;
    let zero = Instance::zero_value(machine.alloc, ty);
    machine.answered(zero)
}

/// Whether a value of a type can be built, stored and returned (WGSL, "Constructible Types").
#[cycle(constructible)]
pub fn is_constructible(ty: &Type) -> bool {
    match ty {
        Type::Bool | Type::I32 | Type::U32 | Type::F32 | Type::F16 | Type::Vec(_, _) => true,
        Type::Array(element, Some(_)) => is_constructible(element.get()),
        Type::Struct(x) => are_constructible(x.get().members.as_slice()),
        _ => false,
    }
}

#[cycle(constructible)]
fn are_constructible(members: &[StructMemberType]) -> bool {
    for member in members {
        if !is_constructible(&member.ty) {
            return false;
        }
    }
    true
}

/// Stops where a name is none of a constructor.
fn check_constructor(machine: &mut Machine, name: &str) -> Result<(), Stop> {
    if is_known(name, other_types()) {
        return machine.refuse_todo(name);
    }
    if is_ctor(name) {
        Ok(())
    } else {
        machine.refuse_name(NameFault::UnknownFunction, name)
    }
}

/// A refusal of a template by the whole name of the vector.
fn by_name(error: Error, name: &str) -> Error {
    let vector = match name {
        "vec2" => "vec2",
        "vec3" => "vec3",
        "vec4" => "vec4",
        _ => return error,
    };
    match error {
        Error::MissingTemplate(_) => Error::MissingTemplate(vector),
        Error::TemplateArgs(_) => Error::TemplateArgs(vector),
        other => other,
    }
}

/// What a call of a constructor answers, or its refusal by the whole name.
fn answered_by_name<T>(
    machine: &mut Machine,
    name: &str,
    made: Result<T, Error>,
) -> Result<T, Stop> {
    match made {
        Ok(made) => Ok(made),
        Err(error) => machine.refuse_operation(by_name(error, name)),
    }
}

/// A type that doesn't nest too deep and has not too many parts.
fn checked_type(machine: &mut Machine, ty: Type) -> Result<Type, Stop> {
    match machine.check_type(&ty) {
        Ok(()) => Ok(ty),
        Err(stop) => {
            drop(ty);
            Err(stop)
        }
    }
}

/// The type that a constructor makes of arguments of types.
pub fn constructed_type(
    machine: &mut Machine,
    name: &str,
    template: Option<&[TpltParam]>,
    arguments: &[Type],
) -> Result<Type, Stop> {
    check_constructor(machine, name)?;
    let made = type_ctor(machine.alloc, name, template, arguments);
    let made = answered_by_name(machine, name, made)?;
    checked_type(machine, made)
}

/// Whether all types are the same array or structure.
fn are_all(types: &[Type], ty: &Type) -> bool {
    if !matches!(ty, Type::Array(_, Some(_)) | Type::Struct(_)) {
        return false;
    }
    for other in types {
        if *other != *ty {
            return false;
        }
    }
    true
}

/// The type of an array of as many elements as the uppermost types, which are taken off. Where they are all the same one, it is not copied.
pub fn typed_array(machine: &mut Machine, count: usize) -> Result<Type, Stop> {
    let mut types = machine.take_types(count)?;
    let Some(last) = types.pop() else {
        drop(types);
        return constructed_type(machine, "array", None, &[]);
    };
    if are_all(types.as_slice(), &last) {
        drop(types);
        let element = Boxed::new(machine.alloc, last)?;
        return checked_type(machine, Type::Array(element, Some(count)));
    }
    types.push(last)?;
    let made = constructed_type(machine, "array", None, types.as_slice());
    drop(types);
    made
}

/// The zero value that a constructor makes of nothing.
fn construct_zero(
    machine: &mut Machine,
    name: &str,
    template: Option<&[TpltParam]>,
) -> Result<Instance, Stop> {
    let ty = constructed_type(machine, name, template, &[])?;
    let value = zero(machine, &ty);
    drop(ty);
    value
}

/// The type of the elements of an array that is built of arguments of one type, by the template where there is one.
fn element_type(
    machine: &mut Machine,
    template: Option<&[TpltParam]>,
    arguments: &[Instance],
) -> Result<Option<Type>, Stop> {
    let Some(first) = arguments.first() else {
        return Ok(None);
    };
    match template {
        None => Ok(Some(first.ty(machine.alloc)?)),
        Some([TpltParam::Ty(element), TpltParam::Instance(count)]) => {
            if is_count(*count, arguments.len()) {
                Ok(Some(element.clone(machine.alloc)?))
            } else {
                Ok(None)
            }
        }
        Some(_) => Ok(None),
    }
}

/// Whether a whole number is a count.
fn is_count(number: LiteralInstance, count: usize) -> bool {
    let number = match number {
        LiteralInstance::AbstractInt(z) => usize::try_from(z).ok(),
        LiteralInstance::I32(z) => usize::try_from(z).ok(),
        LiteralInstance::U32(n) => Some(n as usize),
        LiteralInstance::Bool(_) => None,
    };
    number == Some(count)
}

/// Whether arrays or structures have a type. Other values are not looked at.
fn are_of(values: &[Instance], ty: &Type) -> bool {
    for value in values {
        if is_small(value) || !is_of(value, ty) {
            return false;
        }
    }
    true
}

/// An array whose elements are the arguments as they are.
fn array_of(
    machine: &mut Machine,
    element: Type,
    arguments: Items<Instance>,
) -> Result<Instance, Stop> {
    match machine.check_array(&element, arguments.len()) {
        Ok(()) => Ok(Instance::Array(ArrayInstance {
            element,
            components: arguments,
            runtime_sized: false,
        })),
        Err(stop) => {
            drop(element);
            drop(arguments);
            Err(stop)
        }
    }
}

/// The array of arguments that are arrays or structures of the type of its elements, which are not copied.
fn construct_array(
    machine: &mut Machine,
    template: Option<&[TpltParam]>,
    arguments: Items<Instance>,
) -> Result<Instance, Stop> {
    match element_type(machine, template, arguments.as_slice()) {
        Ok(Some(element)) => {
            if are_of(arguments.as_slice(), &element) {
                return array_of(machine, element, arguments);
            }
            drop(element);
            convert_arguments(machine, "array", template, arguments)
        }
        Ok(None) => convert_arguments(machine, "array", template, arguments),
        Err(stop) => {
            drop(arguments);
            Err(stop)
        }
    }
}

/// The value that a constructor makes of arguments, each converted.
fn convert_arguments(
    machine: &mut Machine,
    name: &str,
    template: Option<&[TpltParam]>,
    arguments: Items<Instance>,
) -> Result<Instance, Stop> {
    let made = call_ctor(machine.alloc, name, template, arguments.as_slice());
    drop(arguments);
    let made = answered_by_name(machine, name, made)?;
    checked(machine, made)
}

fn construct_some(
    machine: &mut Machine,
    name: &str,
    template: Option<&[TpltParam]>,
    arguments: Items<Instance>,
) -> Result<Instance, Stop> {
    let first_is_small = match arguments.as_slice().first() {
        Some(first) => is_small(first),
        None => true,
    };
    if first_is_small || name != "array" {
        convert_arguments(machine, name, template, arguments)
    } else {
        construct_array(machine, template, arguments)
    }
}

/// The value that a constructor makes of arguments.
pub fn construct(
    machine: &mut Machine,
    name: &str,
    template: Option<&[TpltParam]>,
    arguments: Items<Instance>,
) -> Result<Instance, Stop> {
    if arguments.is_empty() {
        drop(arguments);
        return construct_zero(machine, name, template);
    }
    match check_constructor(machine, name) {
        Ok(()) => construct_some(machine, name, template, arguments),
        Err(stop) => {
            drop(arguments);
            Err(stop)
        }
    }
}

/// A value that has not too many parts, and whose type doesn't nest too deep.
fn checked(machine: &mut Machine, value: Instance) -> Result<Instance, Stop> {
    match &value {
        Instance::Array(array) => {
            match machine.check_array(&array.element, array.components.len()) {
                Ok(()) => Ok(value),
                Err(stop) => {
                    drop(value);
                    Err(stop)
                }
            }
        }
        _ => Ok(value),
    }
}

/// Whether values are of the types of the members of a structure, in order, as they are.
fn are_members(values: &[Instance], ty: &StructType) -> bool {
    let members = ty.members.as_slice();
    if members.len() != values.len() {
        return false;
    }
    for (value, member) in values.iter().zip(members.iter()) {
        if !is_of(value, &member.ty) {
            return false;
        }
    }
    true
}

/// The structure of arguments, each converted where one is not yet of its member's type.
fn structure_of(
    machine: &mut Machine,
    ty: StructType,
    arguments: Items<Instance>,
) -> Result<Instance, Stop> {
    if are_members(arguments.as_slice(), &ty) {
        let members = arguments;
        return Ok(Instance::Struct(StructInstance { ty, members }));
    }
    let made = struct_ctor(machine.alloc, &ty, arguments.as_slice());
    drop(ty);
    drop(arguments);
    machine.answered(made)
}

/// The value that the constructor of a structure makes of arguments.
fn structure_of_some(
    machine: &mut Machine,
    ty: Type,
    arguments: Items<Instance>,
) -> Result<Instance, Stop> {
    match ty {
        Type::Struct(ty) => structure_of(machine, ty.into_inner(), arguments),
        other => {
            drop(other);
            drop(arguments);
            Err(Stop::OutOfMemory)
        }
    }
}

/// The value that the constructor of a structure makes of arguments.
pub fn structure(
    machine: &mut Machine,
    ty: Type,
    arguments: Items<Instance>,
) -> Result<Instance, Stop> {
    match machine.check_value(&ty) {
        Ok(()) => {
            if !arguments.is_empty() {
                return structure_of_some(machine, ty, arguments);
            }
            drop(arguments);
            let value = zero(machine, &ty);
            drop(ty);
            value
        }
        Err(stop) => {
            drop(ty);
            drop(arguments);
            Err(stop)
        }
    }
}
