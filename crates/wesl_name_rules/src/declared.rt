//! What declarations say of types.

use crate::reader::{MemberKey, Reader};
use std::alloc::AllocError;
use wesl_name_steps::{DeclareStep, NameProblem, Type, numbered};

impl Reader {
    /// The type of a declaration, of which its type and its value may be on the stack.
    fn declared_type(&self, has_type: bool, has_value: bool) -> Type {
        match (has_type, has_value) {
            (true, true) => self.below(1),
            (false, false) => Type::Unknown,
            _ => self.below(0),
        }
    }

    /// Whether the innermost scope has a local of this name.
    fn has_local(&self, name: u32) -> bool {
        match (self.scopes.find(name), self.starts.last()) {
            (Some(local), Some(start)) => *start <= local as usize,
            _ => false,
        }
    }

    /// Declares a local of a type.
    fn declare_local(&mut self, name: u32, ty: Type) -> Result<(), AllocError> {
        if self.has_local(name) {
            self.tell(NameProblem::Duplicate, name)?;
        }
        let number = numbered(self.local_types.len())?;
        self.local_types.push(ty)?;
        self.scopes.declare(name, number)
    }

    /// The type of the place that is read.
    fn set_place(&mut self, ty: Type) {
        if self.place < self.place_types.len() {
            self.place_types[self.place] = ty;
        }
    }

    /// Whether the structure at the place that is read has a member of this name already; it has one then.
    fn has_member(&mut self, name: u32) -> bool {
        let at = name as usize;
        if at >= self.member_stamps.len() {
            return false;
        }
        let is_there = self.member_stamps[at] == self.reading;
        self.member_stamps[at] = self.reading;
        is_there
    }

    /// Notes the type of the member or parameter of this number at the place that is read.
    fn declare_part(&mut self, number: u32) -> Result<(), AllocError> {
        let place = self.place;
        let ty = self.below(0);
        let _ = self.parts.insert(MemberKey { place, number }, ty)?;
        Ok(())
    }

    /// Declares a member of the structure at the place that is read.
    fn declare_member(&mut self, name: u32) -> Result<(), AllocError> {
        if self.has_member(name) {
            self.tell(NameProblem::Duplicate, name)?;
        }
        let place = self.place;
        let ty = self.below(0);
        let key = MemberKey {
            place,
            number: name,
        };
        let _ = self.members.insert(key, ty)?;
        Ok(())
    }

    /// The type of the member or parameter of this number at a place.
    pub(crate) fn part(&self, place: usize, number: u32) -> Type {
        match self.parts.get(&MemberKey { place, number }) {
            Some(ty) => *ty,
            None => Type::Unknown,
        }
    }

    /// Tells a value that is not of the type that is declared beside it.
    fn expect_declared(&mut self, has_type: bool, has_value: bool) -> Result<(), AllocError> {
        if has_type && has_value {
            let needed = self.below(1);
            let given = self.below(0);
            self.expect(given, needed)?;
        }
        Ok(())
    }

    /// Declares what a step says.
    pub(crate) fn declare(&mut self, step: DeclareStep) -> Result<(), AllocError> {
        match step {
            DeclareStep::Local {
                name,
                has_type,
                has_value,
            } => {
                self.expect_declared(has_type, has_value)?;
                let ty = self.declared_type(has_type, has_value);
                self.declare_local(name, ty)
            }
            DeclareStep::ParameterType(number) => self.declare_part(number),
            DeclareStep::Parameter { name, number } => {
                let ty = self.part(self.place, number);
                self.declare_local(name, ty)
            }
            DeclareStep::Variable {
                has_type,
                has_value,
            } => {
                self.expect_declared(has_type, has_value)?;
                let ty = self.declared_type(has_type, has_value);
                self.set_place(ty);
                Ok(())
            }
            DeclareStep::Place => {
                let ty = self.below(0);
                self.set_place(ty);
                Ok(())
            }
            DeclareStep::Member { name, number } => {
                self.declare_part(number)?;
                self.declare_member(name)
            }
        }
    }
}
