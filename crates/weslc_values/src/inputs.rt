//! The inputs of an entry point in JSON: an object of built-in values, and an object of values by location at `user`.

use crate::error::ValueError;
use crate::fields::{are_inputs, read_u32};
use crate::value::read_value;
use serde_json::{Map, Value};
use std::alloc::{AllocError, Global};
use wgsl_base::Items;
use wgsl_instance::Instance;
use wgsl_memory::Inputs;

/// A value at a location.
#[derive(Drop)]
pub struct UserInput {
    pub location: u32,
    pub value: Instance,
}

/// What stands in JSON for the inputs of an entry point: as `Inputs`, with the values at locations as a list, in which the last of
/// equal locations counts.
#[derive(Drop)]
pub struct InputSettings {
    pub numbers: InputNumbers,
    pub front_facing: Option<bool>,
    pub triples: InputTriples,
    pub user: Items<UserInput>,
}

/// The built-in values that are numbers.
#[derive(Clone, Copy)]
pub struct InputNumbers {
    pub vertex_index: Option<u32>,
    pub instance_index: Option<u32>,
    pub sample_index: Option<u32>,
    pub sample_mask: Option<u32>,
    pub local_invocation_index: Option<u32>,
    pub subgroup_invocation_id: Option<u32>,
    pub subgroup_size: Option<u32>,
}

/// The built-in values of three numbers.
#[derive(Clone, Copy)]
pub struct InputTriples {
    pub local_invocation_id: Option<[u32; 3]>,
    pub global_invocation_id: Option<[u32; 3]>,
    pub workgroup_id: Option<[u32; 3]>,
    pub num_workgroups: Option<[u32; 3]>,
}

/// The inputs of which none is set: each built-in value is zero, but that a front face is seen, that there is one workgroup, and that
/// a subgroup has the size 4.
pub fn zero_inputs(alloc: Global) -> InputSettings {
    InputSettings {
        numbers: InputNumbers {
            vertex_index: Some(0),
            instance_index: Some(0),
            sample_index: Some(0),
            sample_mask: Some(0),
            local_invocation_index: Some(0),
            subgroup_invocation_id: Some(0),
            subgroup_size: Some(4),
        },
        front_facing: Some(true),
        triples: InputTriples {
            local_invocation_id: Some([0; 3]),
            global_invocation_id: Some([0; 3]),
            workgroup_id: Some([0; 3]),
            num_workgroups: Some([1; 3]),
        },
        user: Items::new(alloc),
    }
}

/// What a number is set to: by default, to `null`, which is nothing, or to a number below 2^32. Else there is no answer.
fn number_at(value: &Value, key: &str, default: u32) -> Option<Option<u32>> {
    match value.get(key) {
        None => Some(Some(default)),
        Some(Value::Null) => Some(None),
        Some(number) => match read_u32(number) {
            Some(number) => Some(Some(number)),
            None => None,
        },
    }
}

fn read_input_numbers(value: &Value) -> Option<InputNumbers> {
    Some(InputNumbers {
        vertex_index: number_at(value, "vertex_index", 0)?,
        instance_index: number_at(value, "instance_index", 0)?,
        sample_index: number_at(value, "sample_index", 0)?,
        sample_mask: number_at(value, "sample_mask", 0)?,
        local_invocation_index: number_at(value, "local_invocation_index", 0)?,
        subgroup_invocation_id: number_at(value, "subgroup_invocation_id", 0)?,
        subgroup_size: number_at(value, "subgroup_size", 4)?,
    })
}

fn read_front_facing(value: &Value) -> Option<Option<bool>> {
    match value.get("front_facing") {
        None => Some(Some(true)),
        Some(Value::Null) => Some(None),
        Some(truth) => match truth.as_bool() {
            Some(truth) => Some(Some(truth)),
            None => None,
        },
    }
}

/// A list of three numbers below 2^32.
fn read_triple(value: &Value) -> Option<[u32; 3]> {
    match value.as_array()?.as_slice() {
        [x, y, z] => Some([read_u32(x)?, read_u32(y)?, read_u32(z)?]),
        _ => None,
    }
}

fn triple_at(value: &Value, key: &str, default: u32) -> Option<Option<[u32; 3]>> {
    match value.get(key) {
        None => Some(Some([default; 3])),
        Some(Value::Null) => Some(None),
        Some(triple) => match read_triple(triple) {
            Some(triple) => Some(Some(triple)),
            None => None,
        },
    }
}

fn read_input_triples(value: &Value) -> Option<InputTriples> {
    Some(InputTriples {
        local_invocation_id: triple_at(value, "local_invocation_id", 0)?,
        global_invocation_id: triple_at(value, "global_invocation_id", 0)?,
        workgroup_id: triple_at(value, "workgroup_id", 0)?,
        num_workgroups: triple_at(value, "num_workgroups", 1)?,
    })
}

/// The location that a key names, in decimal digits.
fn read_location(key: &[u8]) -> Option<u32> {
    if key.is_empty() {
        return None;
    }
    let mut location: u32 = 0;
    for digit in key {
        if !digit.is_ascii_digit() {
            return None;
        }
        let tens = location.checked_mul(10)?;
        location = tens.checked_add(u32::from(*digit - b'0'))?;
    }
    Some(location)
}

fn read_user_input(alloc: Global, key: &str, value: &Value) -> Result<UserInput, ValueError> {
    let Some(location) = read_location(key.as_bytes()) else {
        return Err(ValueError::Unexpected);
    };
    let value = read_value(alloc, value)?;
    Ok(UserInput { location, value })
}

fn read_user_inputs(
    alloc: Global,
    members: &Map<String, Value>,
) -> Result<Items<UserInput>, ValueError> {
    let mut user = Items::new(alloc);
    for (key, value) in members.iter() {
        user.push(read_user_input(alloc, key.as_str(), value)?)?;
    }
    Ok(user)
}

fn read_user(alloc: Global, value: &Value) -> Result<Items<UserInput>, ValueError> {
    let Some(user) = value.get("user") else {
        return Ok(Items::new(alloc));
    };
    match user.as_object() {
        Some(members) => read_user_inputs(alloc, members),
        None => Err(ValueError::Unexpected),
    }
}

/// Reads the inputs of an entry point. What is missing is as in `zero_inputs`; a built-in value that is `null` is not there.
pub fn read_inputs(alloc: Global, value: &Value) -> Result<InputSettings, ValueError> {
    let Some(members) = value.as_object() else {
        return Err(ValueError::Unexpected);
    };
    if !are_inputs(members) {
        return Err(ValueError::Unexpected);
    }
    let Some(numbers) = read_input_numbers(value) else {
        return Err(ValueError::Unexpected);
    };
    let Some(front_facing) = read_front_facing(value) else {
        return Err(ValueError::Unexpected);
    };
    let Some(triples) = read_input_triples(value) else {
        return Err(ValueError::Unexpected);
    };
    let user = read_user(alloc, value)?;
    Ok(InputSettings {
        numbers,
        front_facing,
        triples,
        user,
    })
}

/// The inputs that are set so.
pub fn inputs_of(alloc: Global, settings: InputSettings) -> Result<Inputs, AllocError> {
    let InputSettings {
        numbers,
        front_facing,
        triples,
        user,
    } = settings;
    let mut inputs = Inputs::new(alloc);
    inputs.vertex_index = numbers.vertex_index;
    inputs.instance_index = numbers.instance_index;
    inputs.sample_index = numbers.sample_index;
    inputs.sample_mask = numbers.sample_mask;
    inputs.local_invocation_index = numbers.local_invocation_index;
    inputs.subgroup_invocation_id = numbers.subgroup_invocation_id;
    inputs.subgroup_size = numbers.subgroup_size;
    inputs.front_facing = front_facing;
    inputs.local_invocation_id = triples.local_invocation_id;
    inputs.global_invocation_id = triples.global_invocation_id;
    inputs.workgroup_id = triples.workgroup_id;
    inputs.num_workgroups = triples.num_workgroups;
    for input in user.into_vec() {
        let UserInput { location, value } = input;
        let _ = inputs.user_defined.insert(location, value)?;
    }
    Ok(inputs)
}
