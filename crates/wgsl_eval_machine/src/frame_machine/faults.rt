//! How the machine stops.

use crate::faults::{Fault, NameFault, PairFault, PlainFault, Stop, TypeFault};
use crate::frame_machine::machine::Machine;
use crate::frame_machine::parts::{extent_of, is_too_large, parts_of_array};
use std::mem;
use wgsl_base::{Boxed, Text};
use wgsl_shader_type::{Error, Type};
use wgsl_words::ShaderStage;

impl Machine {
    /// Stops by a fault, which the machine keeps.
    pub fn refuse<T>(&mut self, fault: Fault) -> Result<T, Stop> {
        drop(mem::replace(&mut self.fault, Some(fault)));
        Err(Stop::Fault)
    }

    /// Stops by a fault that says no more than its kind.
    pub fn refuse_plain<T>(&mut self, kind: PlainFault) -> Result<T, Stop> {
        self.refuse(Fault::Plain(kind))
    }

    /// Stops by a fault that concerns a name.
    pub fn refuse_name<T>(&mut self, kind: NameFault, name: &str) -> Result<T, Stop> {
        let name = Text::from_str(self.alloc, name)?;
        self.refuse(Fault::Name(kind, name))
    }

    /// Stops by a fault of a type.
    pub fn refuse_type<T>(&mut self, kind: TypeFault, ty: Type) -> Result<T, Stop> {
        self.refuse(Fault::Type(kind, ty))
    }

    /// Stops by a fault of a type where another stands.
    pub fn refuse_types<T>(&mut self, kind: PairFault, from: Type, to: Type) -> Result<T, Stop> {
        self.refuse(Fault::Types(kind, from, to))
    }

    /// Stops by a name that isn't accessible at the stage.
    pub fn refuse_access<T>(&mut self, name: &str) -> Result<T, Stop> {
        let stage: ShaderStage = self.stage;
        let name = Text::from_str(self.alloc, name)?;
        self.refuse(Fault::NotAccessible(name, stage))
    }

    /// Stops by what the rules of types and operators refuse.
    pub fn refuse_operation<T>(&mut self, error: Error) -> Result<T, Stop> {
        if matches!(&error, Error::OutOfMemory) {
            drop(error);
            return Err(Stop::OutOfMemory);
        }
        let error = Boxed::new(self.alloc, error)?;
        self.refuse(Fault::Operation(error))
    }

    /// Stops by a name that isn't supported.
    pub fn refuse_todo<T>(&mut self, name: &str) -> Result<T, Stop> {
        let name = Text::from_str(self.alloc, name)?;
        self.refuse_operation(Error::Todo(name))
    }

    /// Stops by a name that takes no template arguments.
    pub fn refuse_template<T>(&mut self, name: &str) -> Result<T, Stop> {
        let name = Text::from_str(self.alloc, name)?;
        self.refuse_operation(Error::UnexpectedTemplate(name))
    }

    /// What an operation answers, or its refusal.
    pub fn answered<T>(&mut self, answer: Result<T, Error>) -> Result<T, Stop> {
        match answer {
            Ok(value) => Ok(value),
            Err(error) => self.refuse_operation(error),
        }
    }

    /// Takes one step, where one is left.
    pub fn tick(&mut self) -> Result<(), Stop> {
        self.take_steps(1)
    }

    /// Takes so many steps, where they are left.
    pub fn take_steps(&mut self, count: u64) -> Result<(), Stop> {
        match self.left.checked_sub(count) {
            Some(left) => {
                self.left = left;
                Ok(())
            }
            None => self.refuse_plain(PlainFault::StepLimit),
        }
    }

    /// Stops where something has more parts than is taken.
    pub fn check_parts(&mut self, parts: Option<u64>) -> Result<(), Stop> {
        match parts {
            None => self.refuse_plain(PlainFault::TypeTooDeep),
            Some(parts) if is_too_large(parts) => self.refuse_plain(PlainFault::TooManyParts),
            Some(_) => Ok(()),
        }
    }

    /// Stops where a type nests too deep or has too many parts.
    pub fn check_type(&mut self, ty: &Type) -> Result<(), Stop> {
        let parts = match extent_of(ty) {
            Some(extent) => Some(extent.ty),
            None => None,
        };
        self.check_parts(parts)
    }

    /// Stops where an array of so many elements of a type has too many parts.
    pub fn check_array(&mut self, element: &Type, count: usize) -> Result<(), Stop> {
        self.check_parts(parts_of_array(element, count))
    }

    /// Stops where a value of a type has too many parts.
    pub fn check_value(&mut self, ty: &Type) -> Result<(), Stop> {
        let parts = match extent_of(ty) {
            Some(extent) => Some(extent.value),
            None => None,
        };
        self.check_parts(parts)
    }
}
