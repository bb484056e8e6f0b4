//! The fields of JSON objects.

use serde_json::{Map, Value};

/// A number below 2^32.
pub(crate) fn read_u32(value: &Value) -> Option<u32> {
    match value.as_u64() {
        Some(number) => match u32::try_from(number) {
            Ok(number) => Some(number),
            Err(_) => None,
        },
        None => None,
    }
}

/// The text at a key.
pub(crate) fn text_at<'a>(value: &'a Value, key: &str) -> Option<&'a str> {
    value.get(key).and_then(Value::as_str)
}

/// The number below 2^32 at a key.
pub(crate) fn u32_at(value: &Value, key: &str) -> Option<u32> {
    value.get(key).and_then(read_u32)
}

/// Whether it is an object of this many members.
pub(crate) fn has_members(value: &Value, count: usize) -> bool {
    match value.as_object() {
        Some(members) => members.len() == count,
        None => false,
    }
}

/// Whether a test holds of each key.
pub(crate) fn are_inputs(members: &Map<String, Value>) -> bool {
    for key in members.keys() {
        if !is_input(key.as_str()) {
            return false;
        }
    }
    true
}

fn is_input(key: &str) -> bool {
    matches!(
        key,
        "vertex_index"
            | "instance_index"
            | "sample_index"
            | "sample_mask"
            | "local_invocation_index"
            | "subgroup_invocation_id"
            | "subgroup_size"
            | "front_facing"
            | "local_invocation_id"
            | "global_invocation_id"
            | "workgroup_id"
            | "num_workgroups"
            | "user"
    )
}
