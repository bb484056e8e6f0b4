//! Bound values and values of overrides in JSON.

use crate::error::ValueError;
use crate::fields::{has_members, text_at, u32_at};
use crate::value::read_value;
use serde_json::Value;
use std::alloc::Global;
use std::str::FromStr;
use wgsl_base::{Items, Text};
use wgsl_instance::Instance;
use wgsl_path::{ModulePath, ModulePathParseError, PathOrigin};
use wgsl_words::{AccessMode, AddressSpace};

/// A value that is bound to a variable by its group and its number in it.
#[derive(Debug, Drop)]
pub struct Binding {
    pub group: u32,
    pub binding: u32,
    pub space: AddressSpace,
    pub access: AccessMode,
    pub value: Instance,
}

/// The value of an override, which a module declares under a name.
#[derive(Debug, Drop)]
pub struct OverrideValue {
    pub module: ModulePath,
    pub name: Text,
    pub value: Instance,
}

/// Where a binding stands, and how it is reached.
#[derive(Clone, Copy)]
struct Slot {
    group: u32,
    binding: u32,
    space: AddressSpace,
    access: AccessMode,
}

fn read_slot(value: &Value) -> Option<Slot> {
    let group = u32_at(value, "group")?;
    let binding = u32_at(value, "binding")?;
    let space = AddressSpace::from_str(text_at(value, "space")?).ok()?;
    let access = AccessMode::from_str(text_at(value, "access")?).ok()?;
    Some(Slot {
        group,
        binding,
        space,
        access,
    })
}

/// An object of exactly `group`, `binding`, `space`, `access` and `value`.
fn read_binding(alloc: Global, value: &Value) -> Result<Binding, ValueError> {
    if !has_members(value, 5) {
        return Err(ValueError::Unexpected);
    }
    match (read_slot(value), value.get("value")) {
        (Some(slot), Some(bound)) => Ok(Binding {
            group: slot.group,
            binding: slot.binding,
            space: slot.space,
            access: slot.access,
            value: read_value(alloc, bound)?,
        }),
        _ => Err(ValueError::Unexpected),
    }
}

fn read_each_binding(alloc: Global, values: &[Value]) -> Result<Items<Binding>, ValueError> {
    let mut bindings = Items::new(alloc);
    for value in values {
        bindings.push(read_binding(alloc, value)?)?;
    }
    Ok(bindings)
}

/// Reads a list of bindings.
pub fn read_bindings(alloc: Global, value: &Value) -> Result<Items<Binding>, ValueError> {
    match value.as_array() {
        Some(values) => read_each_binding(alloc, values.as_slice()),
        None => Err(ValueError::Unexpected),
    }
}

/// A path that isn't relative.
fn read_path(alloc: Global, text: &str) -> Result<ModulePath, ValueError> {
    match ModulePath::from_str(alloc, text) {
        Ok(path) => {
            if matches!(path.origin, PathOrigin::Relative(_)) {
                Err(ValueError::Unexpected)
            } else {
                Ok(path)
            }
        }
        Err(ModulePathParseError::OutOfMemory) => Err(ValueError::OutOfMemory),
        Err(_) => Err(ValueError::Unexpected),
    }
}

/// An object of exactly `module`, `name` and `value`.
fn read_override(alloc: Global, value: &Value) -> Result<OverrideValue, ValueError> {
    if !has_members(value, 3) {
        return Err(ValueError::Unexpected);
    }
    match (
        text_at(value, "module"),
        text_at(value, "name"),
        value.get("value"),
    ) {
        (Some(module), Some(name), Some(handed)) => {
            let module = read_path(alloc, module)?;
            let name = Text::from_str(alloc, name)?;
            let value = read_value(alloc, handed)?;
            Ok(OverrideValue {
                module,
                name,
                value,
            })
        }
        _ => Err(ValueError::Unexpected),
    }
}

fn read_each_override(alloc: Global, values: &[Value]) -> Result<Items<OverrideValue>, ValueError> {
    let mut overrides = Items::new(alloc);
    for value in values {
        overrides.push(read_override(alloc, value)?)?;
    }
    Ok(overrides)
}

/// Reads a list of values of overrides.
pub fn read_overrides(alloc: Global, value: &Value) -> Result<Items<OverrideValue>, ValueError> {
    match value.as_array() {
        Some(values) => read_each_override(alloc, values.as_slice()),
        None => Err(ValueError::Unexpected),
    }
}
