//! The types of arguments.

use crate::reader::{Meaning, Reader};
use std::alloc::AllocError;
use wesl_mark::Kind;
use wesl_name_steps::{StepList, Type, are_alike};
use wgsl_builtin_names::{Gives, WordKind};

impl Reader {
    /// The argument of this number among so many, which stand last on the stack.
    fn argument(&self, number: usize, count: usize) -> Type {
        self.behind(number, count, count)
    }

    /// Tells arguments that are not of a type.
    fn expect_each(&mut self, count: usize, needed: Type) -> Result<(), AllocError> {
        for number in 0..count {
            let given = self.argument(number, count);
            self.expect(given, needed)?;
        }
        Ok(())
    }

    /// Tells arguments that are not of the types of the parameters or members of a place.
    fn expect_parts(&mut self, place: usize, count: usize) -> Result<(), AllocError> {
        for number in 0..count {
            let given = self.argument(number, count);
            if let Ok(part) = u32::try_from(number) {
                let needed = self.part(place, part);
                self.expect(given, needed)?;
            }
        }
        Ok(())
    }

    /// Tells arguments that are not like the first one. The third may be a scalar.
    fn expect_alike(&mut self, count: usize) -> Result<(), AllocError> {
        let first = self.argument(0, count);
        for number in 1..count {
            let given = self.argument(number, count);
            if number != 2 || given != Type::Scalar {
                self.expect(given, first)?;
            }
        }
        Ok(())
    }

    /// How many components the arguments have at least, and at most where all of them are told.
    fn component_counts(&self, count: usize) -> (u32, Option<u32>) {
        let mut least = 0u32;
        let mut is_told = true;
        for number in 0..count {
            let more = match self.argument(number, count) {
                Type::Scalar => 1,
                Type::Vector(size) => size,
                _ => {
                    is_told = false;
                    1
                }
            };
            least = least.saturating_add(more);
        }
        if is_told {
            (least, Some(least))
        } else {
            (least, None)
        }
    }

    /// Tells arguments that do not make a vector.
    fn expect_components(&mut self, size: u32, count: usize) -> Result<(), AllocError> {
        let (least, most) = self.component_counts(count);
        let is_splat = count == 1 && least == 1;
        let is_short = match most {
            Some(most) => most < size,
            None => false,
        };
        if count == 0 || is_splat || (least <= size && !is_short) {
            Ok(())
        } else {
            self.tell_mismatch(Type::Vector(least), Type::Vector(size))
        }
    }

    /// Tells arguments that do not make a matrix.
    fn expect_columns(&mut self, ty: Type, rows: u32, count: usize) -> Result<(), AllocError> {
        let needed = match count {
            0 => return Ok(()),
            1 => ty,
            2 | 3 => Type::Vector(rows),
            4 if !are_alike(self.argument(0, count), Type::Scalar) => Type::Vector(rows),
            4
                if ty
                    != (Type::Matrix {
                        columns: 2,
                        rows: 2,
                    }) => Type::Vector(rows),
            _ => Type::Scalar,
        };
        self.expect_each(count, needed)
    }

    /// Tells arguments that do not make a value of a type.
    fn expect_parts_of(&mut self, ty: Type, count: usize) -> Result<(), AllocError> {
        match ty {
            Type::Scalar => self.expect_each(count, Type::Scalar),
            Type::Vector(size) => self.expect_components(size, count),
            Type::Matrix { columns: _, rows } => self.expect_columns(ty, rows, count),
            Type::Struct(place) => self.expect_parts(place, count),
            Type::Array(number) => self.expect_each(count, self.element(number)),
            _ => Ok(()),
        }
    }

    /// Tells arguments of a name of WGSL's own. `element` is its template argument.
    fn expect_of_word(
        &mut self,
        kind: WordKind,
        element: Type,
        count: usize,
    ) -> Result<(), AllocError> {
        match kind {
            WordKind::Function(_, Gives::Alike | Gives::Product) => self.expect_alike(count),
            WordKind::Scalar => self.expect_each(count, Type::Scalar),
            WordKind::Vector { size, .. } => self.expect_components(size, count),
            WordKind::Matrix { columns, rows, .. } => {
                self.expect_columns(Type::Matrix { columns, rows }, rows, count)
            }
            WordKind::Array => self.expect_each(count, element),
            _ => Ok(()),
        }
    }

    /// Tells arguments of a call that are of wrong types. They stand on the stack, behind template arguments.
    pub(crate) fn check_call(
        &mut self,
        list: &StepList,
        name: u32,
        templates: u32,
        arguments: Option<u32>,
    ) -> Result<(), AllocError> {
        let Some(count) = arguments else {
            return Ok(());
        };
        if !self.is_telling {
            return Ok(());
        }
        let count = count as usize;
        let templates = templates as usize;
        match self.meaning(name) {
            Meaning::Word(kind) => {
                let element = self.behind(0, templates, templates.saturating_add(count));
                self.expect_of_word(kind, element, count)
            }
            Meaning::Global(place) => match list.places().get(place) {
                Some(found) if found.kind == Kind::Alias => {
                    self.expect_parts_of(self.place_type(place), count)
                }
                _ => self.expect_parts(place, count),
            },
            _ => Ok(()),
        }
    }
}
