//! How much a machine holds at once: of types, arrays and structures. Other values are small.

use crate::faults::{PlainFault, Stop};
use crate::frame_machine::machine::Machine;
use crate::frame_machine::operands::Operand;
use crate::frame_machine::parts::{parts_of, parts_of_type};
use crate::frame_machine::slots::Slot;
use wgsl_memory::Instance;
use wgsl_shader_type::Type;

/// How many parts may be held at once.
const MAX_HELD: u64 = 1 << 20;

/// How many parts are held.
#[derive(Clone, Copy)]
pub struct Held {
    /// By operands and types.
    pub waiting: u64,
    /// By names and cells. A level of names that ends lets go what it held.
    pub named: u64,
    /// By what is known of declarations.
    pub known: u64,
}

impl Held {
    pub fn nothing() -> Held {
        Held {
            waiting: 0,
            named: 0,
            known: 0,
        }
    }

    fn has_room_for(&self, parts: u64) -> bool {
        let held = self
            .waiting
            .saturating_add(self.named)
            .saturating_add(self.known);
        held.saturating_add(parts) <= MAX_HELD
    }

    /// So many parts are known of a declaration in the place of so many others.
    pub(crate) fn know(&mut self, old: u64, new: u64) {
        self.known = self.known.saturating_sub(old).saturating_add(new);
    }
}

/// How many parts are known of a declaration.
pub(crate) fn parts_of_slot(slot: &Slot) -> u64 {
    match slot {
        Slot::Found(value) => parts_of(value),
        Slot::Struct(ty, _) => parts_of_type(ty),
        _ => 0,
    }
}

fn parts_of_operand(operand: &Operand) -> u64 {
    match operand {
        Operand::Value(value) => parts_of(value),
        _ => 0,
    }
}

impl Machine {
    /// Stops where so many parts are too many beside what is held.
    fn check_room(&mut self, parts: u64) -> Result<(), Stop> {
        if parts == 0 || self.held.has_room_for(parts) {
            Ok(())
        } else {
            self.refuse_plain(PlainFault::TooManyParts)
        }
    }

    /// A value becomes an operand.
    pub(crate) fn hold_value(&mut self, value: &Instance) -> Result<(), Stop> {
        let parts = parts_of(value);
        self.check_room(parts)?;
        self.held.waiting = self.held.waiting.saturating_add(parts);
        Ok(())
    }

    /// A type is put on the others.
    pub(crate) fn hold_type(&mut self, ty: &Type) -> Result<(), Stop> {
        let parts = parts_of_type(ty);
        self.check_room(parts)?;
        self.held.waiting = self.held.waiting.saturating_add(parts);
        Ok(())
    }

    /// The uppermost operand, which is taken off.
    pub fn pop_operand(&mut self) -> Option<Operand> {
        let operand = self.operands.pop()?;
        self.held.waiting = self.held.waiting.saturating_sub(parts_of_operand(&operand));
        Some(operand)
    }

    /// A type that was taken off is let go of.
    pub(crate) fn let_go_of_type(&mut self, ty: &Type) {
        self.held.waiting = self.held.waiting.saturating_sub(parts_of_type(ty));
    }

    /// A value gets a name, or is put in a cell, in the last level of names.
    pub fn hold_named(&mut self, value: &Instance) -> Result<(), Stop> {
        let parts = parts_of(value);
        self.check_room(parts)?;
        self.held.named = self.held.named.saturating_add(parts);
        Ok(())
    }

    /// Nothing waits any more.
    pub fn clear(&mut self) {
        self.operands.clear();
        self.types.clear();
        self.params.clear();
        self.numbers.clear();
        self.held.waiting = 0;
    }
}
