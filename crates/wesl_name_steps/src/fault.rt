//! Faults of names.

use crate::types::Type;
use std::alloc::{AllocError, Global};
use std::fmt;
use wgsl_builtin_names::{Choice, Counts};
use wgsl_path::{Span, Text};

/// What is wrong with a name.
#[derive(Clone, Copy, PartialEq, Eq)]
pub enum NameProblem {
    /// Nothing declares it.
    UndefinedSymbol,
    /// It is called, and can't be.
    NotCallable,
    /// It is called with this many arguments, and takes others.
    ParamCount { given: u32, taken: Counts },
    /// A local whose scope has another one of its name, or a member whose structure has.
    Duplicate,
    /// A declaration that leads back to itself.
    Cycle,
    /// No member or component of the type, or of any type, has this name.
    UndefinedMember,
    /// A value of one type stands where one of another type must.
    TypeMismatch,
    /// A type or function stands for a value.
    NotAValue,
    /// A value or function stands for a type.
    NotAType,
    /// A type generator stands without its template arguments.
    NoTemplate,
    /// It is no enumerant of this kind.
    UnknownEnumerant(Choice),
    /// WGSL has no such attribute.
    UnknownAttribute,
    /// `enable` or `requires` of it is not known.
    UnknownExtension,
}

impl NameProblem {
    /// The kind as programs read it.
    pub fn kind(&self) -> &'static str {
        match self {
            NameProblem::UndefinedSymbol => "Validate.UndefinedSymbol",
            NameProblem::NotCallable => "Validate.NotCallable",
            NameProblem::ParamCount { .. } => "Validate.ParamCount",
            NameProblem::Duplicate => "Validate.Duplicate",
            NameProblem::Cycle => "Validate.Cycle",
            NameProblem::UndefinedMember => "Validate.UndefinedMember",
            NameProblem::TypeMismatch => "Validate.TypeMismatch",
            NameProblem::NotAValue => "Validate.NotAValue",
            NameProblem::NotAType => "Validate.NotAType",
            NameProblem::NoTemplate => "Validate.NoTemplate",
            NameProblem::UnknownEnumerant(_) => "Validate.UnknownEnumerant",
            NameProblem::UnknownAttribute => "Validate.UnknownAttribute",
            NameProblem::UnknownExtension => "Validate.UnknownExtension",
        }
    }
}

/// A fault of a unit: the number of the directive or declaration that it stands in, directives first and `;` counted; the place in the text
/// of the innermost statement or expression around it, else of the declaration; the name; and the type concerned, where it is told. For
/// `TypeMismatch` the name is that of the type that is needed.
#[derive(Drop)]
pub struct NameFault {
    pub problem: NameProblem,
    pub place: usize,
    pub span: Span,
    pub name: Text,
    pub owner: Text,
}

/// A fault as it is found: names are numbers of the list of steps.
#[derive(Clone, Copy)]
pub struct Found {
    pub problem: NameProblem,
    pub place: usize,
    pub span: Span,
    /// None, where the type that is needed stands for a name.
    pub name: Option<u32>,
    /// The type that has no such member, or that is not as needed.
    pub owner: Type,
    /// The type that is needed.
    pub needed: Type,
}

impl NameFault {
    /// A fault with copies of the name and of the type that it is of.
    pub fn new(
        alloc: Global,
        found: Found,
        name: &str,
        owner: &str,
    ) -> Result<NameFault, AllocError> {
        Ok(NameFault {
            problem: found.problem,
            place: found.place,
            span: found.span,
            name: Text::from_str(alloc, name)?,
            owner: Text::from_str(alloc, owner)?,
        })
    }

    fn write_member<W: fmt::Write>(&self, f: &mut fmt::Formatter<W>) -> fmt::Result {
        let name = self.name.as_str();
        let owner = self.owner.as_str();
        if owner.is_empty() {
            write!(f, "no type has a member `{name}`")
        } else {
            write!(f, "{owner} has no member `{name}`")
        }
    }

    fn write_mismatch<W: fmt::Write>(&self, f: &mut fmt::Formatter<W>) -> fmt::Result {
        let needed = self.name.as_str();
        let owner = self.owner.as_str();
        write!(f, "{owner} stands where {needed} is needed")
    }

    fn write_enumerant<W: fmt::Write>(
        &self,
        choice: Choice,
        f: &mut fmt::Formatter<W>,
    ) -> fmt::Result {
        let name = self.name.as_str();
        let what = match choice {
            Choice::AddressSpace => "address space",
            Choice::AccessMode => "access mode",
            Choice::TexelFormat => "texel format",
        };
        write!(f, "`{name}` is no {what}")
    }
}

/// A sentence without its full stop.
impl fmt::Display for NameFault {
    fn fmt<W: fmt::Write>(&self, f: &mut fmt::Formatter<W>) -> fmt::Result {
        let name = self.name.as_str();
        match self.problem {
            NameProblem::UndefinedSymbol => write!(f, "nothing declares `{name}`"),
            NameProblem::NotCallable => write!(f, "`{name}` is no function and can't be called"),
            NameProblem::ParamCount { given, taken } => {
                write!(
                    f,
                    "`{name}` takes {taken} arguments, and is called with {given}"
                )
            }
            NameProblem::Duplicate => write!(f, "`{name}` is declared twice"),
            NameProblem::Cycle => write!(f, "`{name}` needs itself"),
            NameProblem::UndefinedMember => self.write_member(f),
            NameProblem::TypeMismatch => self.write_mismatch(f),
            NameProblem::NotAValue => write!(f, "`{name}` is no value"),
            NameProblem::NotAType => write!(f, "`{name}` is no type"),
            NameProblem::NoTemplate => write!(f, "`{name}` needs a type in `<` and `>` behind it"),
            NameProblem::UnknownEnumerant(choice) => self.write_enumerant(choice, f),
            NameProblem::UnknownAttribute => write!(f, "WGSL has no attribute `{name}`"),
            NameProblem::UnknownExtension => write!(f, "WGSL has no extension `{name}`"),
        }
    }
}
