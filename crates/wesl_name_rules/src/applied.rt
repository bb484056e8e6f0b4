//! The types of expressions.

use crate::reader::{Meaning, MemberKey, Reader};
use std::alloc::AllocError;
use wesl_mark::Kind;
use wesl_name_steps::{
    NameProblem, StepList, Type, ValueStep, binary_type, component_or_part, components, is_defined,
};
use wgsl_builtin_names::{Gives, WordKind, is_part};
use wgsl_words::{BinaryOperator, UnaryOperator};

/// The types that stand behind a name: the first template arguments and the first arguments.
#[derive(Clone, Copy)]
struct Behind {
    first_template: Type,
    second_template: Type,
    first: Type,
    second: Type,
    is_templated: bool,
}

/// The first of two types, or the second where it is not told.
fn told(first: Type, second: Type) -> Type {
    match first {
        Type::Unknown => second,
        known => known,
    }
}

/// What `textureDimensions` returns.
fn dimensions_type(texture: Type) -> Type {
    match texture {
        Type::Texture { dimensions, .. } if dimensions == 1 => Type::Scalar,
        Type::Texture { dimensions, .. } => Type::Vector(dimensions),
        _ => Type::Unknown,
    }
}

/// What is read from a texture.
fn texel_type(texture: Type) -> Type {
    match texture {
        Type::Texture { is_depth, .. } if is_depth => Type::Scalar,
        Type::Texture { .. } => Type::Vector(4),
        _ => Type::Unknown,
    }
}

impl Reader {
    /// How many members a structure has.
    pub(crate) fn member_count(&self, list: &StepList, ty: Type) -> u32 {
        let Type::Struct(place) = ty else {
            return 0;
        };
        match list.places().get(place) {
            Some(place) => match place.kind {
                Kind::Struct { members } => members,
                _ => 0,
            },
            None => 0,
        }
    }

    /// What a function of WGSL's own returns.
    fn given_type(&self, gives: Gives, behind: Behind) -> Type {
        match gives {
            Gives::Nothing => Type::Unknown,
            Gives::Same | Gives::Alike => told(behind.first, behind.second),
            Gives::Scalar | Gives::Product => Type::Scalar,
            Gives::Vector(size) => Type::Vector(size),
            Gives::Transposed => match behind.first {
                Type::Matrix { columns, rows } => Type::Matrix {
                    columns: rows,
                    rows: columns,
                },
                _ => Type::Unknown,
            },
            Gives::Pointee => self.pointee(behind.first),
            Gives::Template => behind.first_template,
            Gives::Texel => texel_type(behind.first),
            Gives::Dimensions => dimensions_type(behind.first),
            Gives::Parts => Type::Parts,
        }
    }

    /// What a pointer leads to.
    fn pointee(&self, pointer: Type) -> Type {
        match pointer {
            Type::Pointer(number) => self.element(number),
            _ => Type::Unknown,
        }
    }

    /// The type that a name of WGSL's own is, or what it returns.
    fn word_type(&mut self, kind: WordKind, behind: Behind) -> Result<Type, AllocError> {
        Ok(match kind {
            WordKind::Function(_, gives) => self.given_type(gives, behind),
            WordKind::Scalar | WordKind::Atomic => Type::Scalar,
            WordKind::Vector { size, .. } => Type::Vector(size),
            WordKind::Matrix { columns, rows, .. } => Type::Matrix { columns, rows },
            WordKind::Array if behind.is_templated => Type::Array(self.hold(
                behind.first_template,
            )?),
            WordKind::Array => Type::Array(self.hold(behind.first)?),
            WordKind::Pointer => Type::Pointer(self.hold(behind.second_template)?),
            WordKind::Sampler => Type::Sampler,
            WordKind::Texture {
                dimensions,
                is_depth,
                ..
            } => Type::Texture {
                dimensions,
                is_depth,
            },
            WordKind::StorageTexture(dimensions) => Type::Texture {
                dimensions,
                is_depth: false,
            },
            WordKind::Other | WordKind::Enumerant(_) => Type::Unknown,
        })
    }

    /// The type of a name with what stands behind it.
    fn name_type(
        &mut self,
        list: &StepList,
        name: u32,
        behind: Behind,
    ) -> Result<Type, AllocError> {
        match self.meaning(name) {
            Meaning::Local(number) => Ok(match self.local_types.get(number) {
                Some(ty) => *ty,
                None => Type::Unknown,
            }),
            Meaning::Global(place) => Ok(match list.places().get(place) {
                Some(found) if matches!(&found.kind, Kind::Struct { .. }) => Type::Struct(place),
                _ => self.place_type(place),
            }),
            Meaning::Word(kind) => self.word_type(kind, behind),
            Meaning::Free => Ok(Type::Unknown),
        }
    }

    /// Takes what stands behind a name off the stack.
    fn take_behind(&mut self, templates: u32, arguments: Option<u32>) -> Behind {
        let arguments = arguments.unwrap_or(0) as usize;
        let templates = templates as usize;
        let all = arguments.saturating_add(templates);
        let behind = Behind {
            first_template: self.behind(0, templates, all),
            second_template: self.behind(1, templates, all),
            first: self.behind(0, arguments, arguments),
            second: self.behind(1, arguments, arguments),
            is_templated: templates > 0,
        };
        let rest = self.stack.len().saturating_sub(all);
        self.stack.truncate(rest);
        behind
    }

    /// The type of this number among so many, the first of which is so deep on the stack.
    pub(crate) fn behind(&self, number: usize, count: usize, depth: usize) -> Type {
        if number >= count {
            return Type::Unknown;
        }
        match depth.checked_sub(number.saturating_add(1)) {
            Some(above) => self.below(above),
            None => Type::Unknown,
        }
    }

    /// Takes the last type off the stack.
    fn take(&mut self) -> Type {
        match self.stack.pop() {
            Some(ty) => ty,
            None => Type::Unknown,
        }
    }

    /// The type of what stands behind an operator.
    fn unary_type(&mut self, operator: UnaryOperator, ty: Type) -> Result<Type, AllocError> {
        match operator {
            UnaryOperator::AddressOf => Ok(Type::Pointer(self.hold(ty)?)),
            UnaryOperator::Indirection => Ok(self.pointee(ty)),
            _ => Ok(ty),
        }
    }

    /// The type of an element.
    fn indexed_type(&self, base: Type) -> Type {
        match base {
            Type::Array(number) => self.element(number),
            Type::Vector(_) => Type::Scalar,
            Type::Matrix { columns: _, rows } => Type::Vector(rows),
            _ => Type::Unknown,
        }
    }

    /// What a pointer leads to, or the type itself.
    fn reached(&self, ty: Type) -> Type {
        match ty {
            Type::Pointer(number) => self.element(number),
            other => other,
        }
    }

    /// The type of a member. Nothing, where the type has no such member.
    fn member_type(&self, list: &StepList, base: Type, name: u32) -> Option<Type> {
        match base {
            Type::Struct(place) => self.member(place, name),
            Type::Vector(size) => components(list.name(name), size),
            Type::Parts if is_part(list.name(name)) => Some(Type::Unknown),
            Type::Unknown if self.is_member(name) => Some(Type::Unknown),
            Type::Unknown => component_or_part(list.name(name)),
            _ => None,
        }
    }

    /// The type of a member of the structure at a place.
    fn member(&self, place: usize, name: u32) -> Option<Type> {
        let key = MemberKey {
            place,
            number: name,
        };
        self.members.get(&key).copied()
    }

    /// Whether some structure has a member of this name.
    fn is_member(&self, name: u32) -> bool {
        match self.member_stamps.get(name as usize) {
            Some(stamp) => *stamp != 0,
            None => false,
        }
    }

    /// The type of a member of the last type.
    fn select(&mut self, list: &StepList, name: u32) -> Result<Type, AllocError> {
        let base = self.take();
        let base = self.reached(base);
        match self.member_type(list, base, name) {
            Some(ty) => Ok(ty),
            None => {
                self.tell_of(
                    NameProblem::UndefinedMember,
                    Some(name),
                    base,
                    Type::Unknown,
                )?;
                Ok(Type::Unknown)
            }
        }
    }

    /// The type of an operation, which is told where it is not defined.
    fn operate(&mut self, operator: BinaryOperator) -> Result<Type, AllocError> {
        let right = self.take();
        let left = self.take();
        if !is_defined(operator, left, right) {
            self.tell_mismatch(right, left)?;
            return Ok(Type::Unknown);
        }
        Ok(binary_type(operator, left, right))
    }

    /// Reads an assignment.
    fn assign(&mut self, operator: Option<BinaryOperator>) -> Result<(), AllocError> {
        let place = self.below(1);
        let given = match operator {
            None => {
                let given = self.take();
                let _place = self.take();
                given
            }
            Some(operator) => self.operate(operator)?,
        };
        self.expect(given, place)
    }

    /// The type of an element of the last type but one.
    fn index(&mut self) -> Result<Type, AllocError> {
        let number = self.take();
        self.expect(number, Type::Scalar)?;
        let base = self.take();
        let base = self.reached(base);
        if matches!(
            base,
            Type::Scalar | Type::Struct(_) | Type::Sampler | Type::Texture { .. }
        ) {
            self.tell_mismatch(base, Type::Array(0))?;
        }
        Ok(self.indexed_type(base))
    }

    /// Reads a step that leaves no type.
    fn consume(&mut self, step: ValueStep) -> Result<(), AllocError> {
        match step {
            ValueStep::Assign(operator) => self.assign(operator),
            ValueStep::Return => {
                let given = self.take();
                let needed = self.place_type(self.place);
                self.expect(given, needed)
            }
            ValueStep::Scalar => {
                let given = self.take();
                self.expect(given, Type::Scalar)
            }
            _ => Ok(()),
        }
    }

    /// Reads a step of the stack.
    pub(crate) fn value(&mut self, list: &StepList, step: ValueStep) -> Result<(), AllocError> {
        let ty = match step {
            ValueStep::Literal => Type::Scalar,
            ValueStep::Unknown => Type::Unknown,
            ValueStep::Unary(operator) => {
                let ty = self.take();
                self.unary_type(operator, ty)?
            }
            ValueStep::Binary(operator) => self.operate(operator)?,
            ValueStep::Index => self.index()?,
            ValueStep::Select(name) => self.select(list, name)?,
            ValueStep::Apply {
                name,
                templates,
                arguments,
            } => {
                self.check_call(list, name, templates, arguments)?;
                let behind = self.take_behind(templates, arguments);
                self.name_type(list, name, behind)?
            }
            ValueStep::Assign(_) | ValueStep::Return | ValueStep::Scalar => {
                return self.consume(step);
            }
        };
        self.stack.push(ty)?;
        Ok(())
    }
}
