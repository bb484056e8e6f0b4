//! Values that are handed in.

use crate::frame_machine::machine::Machine;
use std::alloc::AllocError;
use wgsl_memory::Instance;
use wgsl_words::{AccessMode, AddressSpace, BuiltinValue};

/// A binding, and its cell once a variable took it.
#[derive(Drop)]
pub struct Bound {
    pub group: u32,
    pub binding: u32,
    pub space: AddressSpace,
    pub access: AccessMode,
    pub value: Instance,
    pub cell: Option<usize>,
}

impl Machine {
    /// The position of a binding of these numbers, the last one's where there are more.
    pub fn bound_at(&self, group: u32, binding: u32) -> Option<usize> {
        let mut found = None;
        for (at, bound) in self.bindings.as_slice().iter().enumerate() {
            if bound.group == group && bound.binding == binding {
                found = Some(at);
            }
        }
        found
    }

    /// Hands in the value of a binding.
    pub fn add_binding(&mut self, bound: Bound) -> Result<(), AllocError> {
        self.bindings.push(bound)
    }

    /// The value of a binding, as it is by now.
    pub fn binding(&self, group: u32, binding: u32) -> Option<&Instance> {
        let bound = self.bindings.get(self.bound_at(group, binding)?)?;
        match bound.cell {
            Some(cell) => self.memory.as_slice().get(cell),
            None => Some(&bound.value),
        }
    }

    /// The cell of a binding, by its position. The first time it is a new one with the binding's value.
    pub fn cell_of(&mut self, at: usize) -> Result<usize, AllocError> {
        let Some(bound) = self.bindings.get(at) else {
            return Err(AllocError);
        };
        if let Some(cell) = bound.cell {
            return Ok(cell);
        }
        let value = bound.value.clone(self.alloc)?;
        let cell = self.memory.allocate(value)?;
        if at < self.bindings.len() {
            self.bindings.get_mut(at).cell = Some(cell);
        }
        Ok(cell)
    }

    /// Hands in the value of an override, by its name. The last one of a name holds.
    pub fn add_override(&mut self, name: &str, value: Instance) -> Result<(), AllocError> {
        match String::from_str(self.alloc, name) {
            Ok(name) => {
                drop(self.overrides.insert(name, value)?);
                Ok(())
            }
            Err(error) => {
                drop(value);
                Err(error)
            }
        }
    }

    /// The built-in value of an entry point, if it is there.
    pub fn builtin(&self, builtin: BuiltinValue) -> Option<&Instance> {
        for (known, value) in self.builtins.as_slice() {
            if *known == builtin {
                return Some(value);
            }
        }
        None
    }

    /// The value at a location of an entry point, if it is there.
    pub fn located(&self, location: u32) -> Option<&Instance> {
        for (known, value) in self.located.as_slice() {
            if *known == location {
                return Some(value);
            }
        }
        None
    }
}
