//! Values in JSON: `true`, `false`, the text of a number, a list (an array), or an object of a list at `vec` (a vector).

use crate::error::ValueError;
use crate::number::read_number;
use serde_json::Value;
use std::alloc::{AllocError, Global};
use wgsl_base::Items;
use wgsl_instance::{ArrayInstance, Instance, VecInstance};
use wgsl_scalar::type_of;
use wgsl_shader_type::{LiteralInstance, Type};

/// The scalar that stands there, if one does.
fn read_scalar(value: &Value) -> Option<LiteralInstance> {
    match value.as_bool() {
        Some(truth) => Some(LiteralInstance::Bool(truth)),
        None => match value.as_str() {
            Some(text) => read_number(text.as_bytes()),
            None => None,
        },
    }
}

fn scalar_value(value: &Value) -> Result<Instance, ValueError> {
    match read_scalar(value) {
        Some(scalar) => Ok(Instance::Literal(scalar)),
        None => Err(ValueError::Unexpected),
    }
}

/// The list at `vec` of an object that has nothing else.
fn components_at(value: &Value) -> Option<&[Value]> {
    let members = value.as_object()?;
    if members.len() != 1 {
        return None;
    }
    match value.get("vec").and_then(Value::as_array) {
        Some(components) => Some(components.as_slice()),
        None => None,
    }
}

fn read_components(alloc: Global, values: &[Value]) -> Result<Items<LiteralInstance>, ValueError> {
    let mut components = Items::new(alloc);
    for value in values {
        match read_scalar(value) {
            Some(component) => components.push(component)?,
            None => return Err(ValueError::Unexpected),
        }
    }
    Ok(components)
}

/// Whether these are 2 to 4 scalars of one type.
fn are_components(components: &[LiteralInstance]) -> bool {
    match components {
        [first, ..] => {
            components.len() >= 2
                && components.len() <= 4
                && components
                    .iter()
                    .all(|component| type_of(*component) == type_of(*first))
        }
        [] => false,
    }
}

fn vector_of(components: Items<LiteralInstance>) -> Result<Instance, ValueError> {
    if !are_components(components.as_slice()) {
        return Err(ValueError::Unexpected);
    }
    match components.as_slice().first() {
        Some(first) => Ok(Instance::Vec(VecInstance {
            ty: type_of(*first),
            components,
        })),
        None => Err(ValueError::Unexpected),
    }
}

/// A vector of 2 to 4 scalars of one type.
fn read_vector(alloc: Global, value: &Value) -> Result<Instance, ValueError> {
    match components_at(value) {
        Some(values) => vector_of(read_components(alloc, values)?),
        None => Err(ValueError::Unexpected),
    }
}

fn has_type(alloc: Global, value: &Instance, ty: &Type) -> Result<bool, AllocError> {
    let own = value.ty(alloc)?;
    let same = own == *ty;
    drop(own);
    Ok(same)
}

/// Whether all elements have this type.
fn have_type(alloc: Global, elements: &[Instance], ty: &Type) -> Result<bool, AllocError> {
    for element in elements {
        if !has_type(alloc, element, ty)? {
            return Ok(false);
        }
    }
    Ok(true)
}

/// The type of the elements, which all have, if there is an element.
fn element_type(alloc: Global, elements: &[Instance]) -> Result<Type, ValueError> {
    let Some(first) = elements.first() else {
        return Err(ValueError::Unexpected);
    };
    let element = first.ty(alloc)?;
    if have_type(alloc, elements, &element)? {
        Ok(element)
    } else {
        drop(element);
        Err(ValueError::Unexpected)
    }
}

/// An array of one or more elements of one type.
fn array_of(alloc: Global, components: Items<Instance>) -> Result<Instance, ValueError> {
    let element = element_type(alloc, components.as_slice())?;
    Ok(Instance::Array(ArrayInstance {
        element,
        components,
        runtime_sized: false,
    }))
}

/// The value that stands in JSON: `true`, `false`, the text of a number, a nonempty list of values of one type, which is an array, or
/// `{"vec": [..]}` with 2 to 4 scalars of one type. Anything else is `Unexpected`.
#[cycle(values)]
pub fn read_value(alloc: Global, value: &Value) -> Result<Instance, ValueError> {
    match value {
        Value::Array(values) => array_of(alloc, read_values(alloc, values.as_slice())?),
        Value::Object(_) => read_vector(alloc, value),
        Value::Bool(_) | Value::String(_) | Value::Null | Value::Number(_) => scalar_value(value),
    }
}

#[cycle(values)]
fn read_values(alloc: Global, values: &[Value]) -> Result<Items<Instance>, ValueError> {
    let mut read = Items::new(alloc);
    for value in values {
        read.push(read_value(alloc, value)?)?;
    }
    Ok(read)
}
